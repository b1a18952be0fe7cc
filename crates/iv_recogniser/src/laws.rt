ghost use Rattle.std.specs.Prelude.{◌≡◌, Bool, true};
ghost use Rattle.std.specs.List.{list_all};
ghost use Rattle.iv_recogniser.specs.declared.class.Class.{Class};
ghost use Rattle.iv_recogniser.specs.declared.class.Sort.{Sort};
ghost use Rattle.iv_recogniser.specs.Class.{has, members, same_class};

/// What holds of all members of a set holds of each class that the set has.
pub fn sets_are_their_members()
    ensures { (k : Sort) (test : Class → Bool) → list_all test (members k) ≡ true → (c : Class) → has k c ≡ true → test c ≡ true }
{}

/// Two classes that are the same by their numbers are the same.
pub fn classes_are_their_numbers()
    ensures { (a b : Class) → same_class a b ≡ true → a ≡ b }
{}
