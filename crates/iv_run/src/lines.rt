//! A law of the lines that are reported.
ghost use Rattle.iv_run.specs.Line.{TheoremsAreLines, RefusalsAreLines};

/// What is printed of a theorem or of a refused command is one line, whose only line feed is its last
/// character, unless a name or the command's word holds a line feed.
pub fn reports_are_lines()
    ensures theorems { TheoremsAreLines }
    ensures refusals { RefusalsAreLines }
{}
