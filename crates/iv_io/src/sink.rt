ghost use Rattle.std.specs.Prelude.{◌≡◌, ℕ, ◌<◌, ◌≤◌, List, ◌++◌, Option, Some, length, take, IfOk, OnOk, OnErr};
ghost use Rattle.iv_io.specs.Counts.{last_count, Rose};

use crate::failed::Failed;

/// Takes bytes in order, a part at each call.
pub trait Sink {
    // the bytes written so far, where the sink tells them
    ghost written: { Self → Option (List ℕ) };

    // how often it failed so far
    ghost faults: { Self → ℕ };

    /// Takes bytes from the start of `from`, and says how many: at least one where there is one. Fails
    /// where it counts a fault, and has then taken nothing.
    fn write(&mut self, from: &[u8]) -> Result<usize, Failed>
        ensures within { IfOk result (λ n. n ≤ length from.now) }
        ensures appended { IfOk result (λ n. (w : List ℕ) → written self.old ≡ Some w →
            written self.new ≡ Some (w ++ take n from.now)) }
        ensures progress { 0 < length from.now → IfOk result (λ n. 1 ≤ n) }
        ensures failed { OnErr result (Rose (faults self.old) (faults self.new)) }
        ensures failed_keeps { OnErr result (written self.new ≡ written self.old) }
        ensures faults_stay { OnOk result (faults self.new ≡ faults self.old) }
        ensures faults_grow { faults self.old ≤ faults self.new }
        ensures faults_fit { faults self.new ≤ last_count };
}
