ghost use Rattle.std.specs.Prelude.{◌≡◌, Some, map};
ghost use Rattle.iv_text.specs.Symbol.{character_named, printed_for, symbols};

/// No two symbols of the table share a name or a character: each row is found by its name and by its character.
pub fn rows_are_found()
    ensures by_name { map (λ s. character_named s.name) symbols ≡ map (λ s. Some s.character) symbols }
    ensures by_character { map (λ s. printed_for s.character) symbols ≡ map (λ s. Some s.printed) symbols }
{}
