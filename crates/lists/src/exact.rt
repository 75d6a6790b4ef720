// Records whose equality tells them apart.
ghost use Rattle.std.specs.Prelude.{◌≡◌, Bool, Decides};
ghost use Rattle.std.proofs.Common.{rules};

// `==` answers whether the two are the same value.
pub trait Exact: PartialEq + Sized {
    ghost same: { (x y : Self) (b : Bool) → (b ≡ Self.PartialEq.eq x y) → Decides b (x ≡ y) };
}

impl Exact for u64 {
    ghost same = { Prim.search rules };
}
