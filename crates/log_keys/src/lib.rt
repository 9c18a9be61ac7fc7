// Keys in a lent buffer, each of which stands for an entry of a log.
#![tactic(auto)]

ghost use Rattle.std.specs.Prelude.{◌≤◌, ◌<◌, length};
ghost use Rattle.log_keys.specs.KeysKept.{KeepPost};

// Moves the key at place i to place k, if it is kept, and says where the next one goes.
pub fn keep(keys: &mut [u64], k: usize, i: usize, kept: bool) -> usize
    requires { (k ≤ i) × (i < length keys.old) }
    ensures { KeepPost k i kept keys.old keys.new result }
{
    if kept {
        keys[k] = keys[i];
        return k + 1;
    }
    k
}
