ghost use Rattle.std.specs.Prelude.{◌≡◌, ℕ, ◌<◌, ◌≤◌, List, [], Option, Some, length, take, drop, Ok, IfOk, OnOk, OnErr};
ghost use Rattle.iv_io.specs.Counts.{last_count, counted, Rose};

use crate::failed::Failed;

/// Gives bytes in order, a part at each call.
pub trait Source {
    // the bytes still to be read, where the source tells them
    ghost left: { Self → Option (List ℕ) };

    // how many bytes it gave so far
    ghost taken: { Self → ℕ };

    // how often it failed so far
    ghost faults: { Self → ℕ };

    /// Puts the next bytes at the start of `into`, and says how many. Into a slice that is not empty it
    /// puts none only at the end. Fails where it counts a fault, and has then given nothing.
    fn read(&mut self, into: &mut [u8]) -> Result<usize, Failed>
        ensures within { IfOk result (λ n. n ≤ length into.old) }
        ensures taken_ok { IfOk result (λ n. taken self.new ≡ counted (taken self.old) n) }
        ensures taken_err { OnErr result (taken self.new ≡ taken self.old) }
        ensures given { IfOk result (λ n. (b : List ℕ) → left self.old ≡ Some b →
            (take n into.new ≡ take n b) × (n ≤ length b) × (left self.new ≡ Some (drop n b))) }
        ensures end { 0 < length into.old → result ≡ Ok 0 →
            (b : List ℕ) → left self.old ≡ Some b → b ≡ [] }
        ensures failed { OnErr result (Rose (faults self.old) (faults self.new)) }
        ensures failed_keeps { OnErr result (left self.new ≡ left self.old) }
        ensures faults_stay { OnOk result (faults self.new ≡ faults self.old) }
        ensures faults_grow { faults self.old ≤ faults self.new }
        ensures faults_fit { faults self.new ≤ last_count }
        ensures taken_fits { taken self.new ≤ last_count }
        ensures taken_fitted { taken self.old ≤ last_count };
}
