ghost use Rattle.std.specs.Prelude.{◌≡◌, [], ◌∷◌};
ghost use Rattle.std.proofs.Common.{lit<};
ghost use Rattle.uma_life.specs.Life.{no_counts};
ghost use Rattle.uma_life.specs.Hook.{KegInit, ZoneInit, Ctor, Dtor, ZoneFini, KegFini};
ghost use Rattle.uma_life.specs.Word.{whole_life, tally_in};

// The word and the counts of a life with one stay in zone 1, which has one build, and one in zone 0, which has two.
fn two_stays()
    ensures word { whole_life (record { zone = 1; times = 1; in_range = lit< tt } ∷ record { zone = 0; times = 2; in_range = lit< tt } ∷ [])
        ≡ KegInit ∷ ZoneInit 1 ∷ Ctor 1 ∷ Dtor 1 ∷ ZoneFini 1 ∷ Ctor 0 ∷ Dtor 0 ∷ Ctor 0 ∷ Dtor 0 ∷ KegFini ∷ [] }
    ensures counts { let tally = tally_in (KegInit ∷ ZoneInit 1 ∷ Ctor 1 ∷ Dtor 1 ∷ ZoneFini 1 ∷ Ctor 0 ∷ Dtor 0 ∷ Ctor 0 ∷ Dtor 0 ∷ KegFini ∷ []) in
        (tally.keg_inits ≡ 1) × (tally.keg_finis ≡ 1)
        × (tally.zones ≡ record { inits = 0; ctors = 2; dtors = 2; finis = 0 } ∷ record { inits = 1; ctors = 1; dtors = 1; finis = 1 }
        ∷ no_counts ∷ no_counts ∷ no_counts ∷ no_counts ∷ no_counts ∷ no_counts ∷ []) }
{}
