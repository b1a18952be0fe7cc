//! The laws of instances, each as the contract of a function that does nothing.
ghost use Rattle.iv_rules.specs.Instance.{AreKeysApart};
ghost use Rattle.iv_conclusions.specs.Laws.{InstancesKeepTypes};

use iv_hsub::laws::putting_gives_terms;
use iv_rules::Instance;

/// Keys of one list of an instance differ.
pub fn are_keys_apart(s: &Instance)
    ensures { AreKeysApart s.now }
{
    let _fixed = s.fixed.len();
    let _types = s.types.len();
    let _frees = s.frees.len();
    let _schematics = s.schematics.len();
}

/// An instance whose values have their keys' types leaves a term, of its type with the types put in.
pub fn instances_keep_types()
    ensures { InstancesKeepTypes }
{
    putting_gives_terms();
}
