//! Laws of the tables, each the contract of a function that does nothing.
ghost use Rattle.std.specs.Prelude.{◌≡◌, ℕ, Bool};
ghost use Rattle.qm_zomega.specs.Numbers.{Number, number, negative, turned, omega_times};
ghost use Rattle.std.specs.Prelude.{neg_ℤ};
ghost use Rattle.qm_denot.specs.declared.Wire.{Wire};
ghost use Rattle.qm_denot.specs.declared.Letter.TheVariants as letter;
ghost use Rattle.qm_tables.specs.declared.Case.TheVariants as case;
ghost use Rattle.qm_tables.specs.Cases.{case_of};

/// The eight turns, component by component.
pub fn turn_law()
    ensures one { (z : Number) → omega_times 0 z ≡ z }
    ensures omega { (z : Number) → omega_times 1 z ≡ number (neg_ℤ z.d) z.a z.b z.c }
    ensures omega2 { (z : Number) → omega_times 2 z ≡ number (neg_ℤ z.c) (neg_ℤ z.d) z.a z.b }
    ensures omega3 { (z : Number)
        → omega_times 3 z ≡ number (neg_ℤ z.b) (neg_ℤ z.c) (neg_ℤ z.d) z.a }
    ensures omega4 { (z : Number)
        → omega_times 4 z ≡ number (neg_ℤ z.a) (neg_ℤ z.b) (neg_ℤ z.c) (neg_ℤ z.d) }
    ensures omega5 { (z : Number)
        → omega_times 5 z ≡ number z.d (neg_ℤ z.a) (neg_ℤ z.b) (neg_ℤ z.c) }
    ensures omega6 { (z : Number) → omega_times 6 z ≡ number z.c z.d (neg_ℤ z.a) (neg_ℤ z.b) }
    ensures omega7 { (z : Number) → omega_times 7 z ≡ number z.b z.c z.d (neg_ℤ z.a) }
{}

/// The case of each of the nine letters.
pub fn case_law()
    ensures phase { (k : ℕ) (w : Wire) → case_of (letter.Phase k w) ≡ case.Turn k }
    ensures flip { (w : Wire) → case_of (letter.Flip w) ≡ case.Swap }
    ensures had { (w : Wire) → case_of (letter.Had w) ≡ case.Mix }
    ensures cx { (c t : Wire) → case_of (letter.Cx c t) ≡ case.Cross }
    ensures cz { (c t : Wire) → case_of (letter.Cz c t) ≡ case.Sign }
    ensures pair { (a b : Wire) → case_of (letter.Pair a b) ≡ case.Double }
    ensures keep { (w : Wire) (m : Bool) → case_of (letter.Keep w m) ≡ case.Hold }
    ensures take { (w : Wire) (m : Bool) → case_of (letter.Take w m) ≡ case.Shrink }
    ensures rename { (a b : Wire) → case_of (letter.Rename a b) ≡ case.Name }
{}
