//! Proves what the definitions of a power reservoir mean. Each law is the `ensures` of a function that does nothing.
ghost use Rattle.std.specs.Prelude.{◌≡◌, ◌≤◌, ◌≤ℤ◌, ℕ, ℤ, pos, List, [], ◌∷◌, Some, None, true, MatchOption, option_map};
ghost use Rattle.rw_base.specs.declared.number.ObjectNo.{ObjectNo};
ghost use Rattle.rw_base.specs.declared.number.RuleNo.{RuleNo};
ghost use Rattle.rw_table.specs.Table.{Row};
ghost use Rattle.rw_model.specs.Kind.{IsKind};
ghost use Rattle.rw_model.specs.declared.content.Content.{Content};
ghost use Rattle.rw_model.specs.declared.kind.Kind.TheVariants as Kind;
ghost use Rattle.rw_method.specs.declared.put.Put.{Put};
ghost use Rattle.rw_method.specs.declared.solved.Solved.TheVariants as Solved;
ghost use Rattle.rw_method.specs.declared.view.View.{View};
ghost use Rattle.rw_method.specs.Power.{plant, request_of, least_release, quotient_release, HasNoRelease, IsLeastRelease};
ghost use Rattle.rw_method.specs.Puts.{put, is_put_by_request, GivesRequest};
ghost use Rattle.rw_method.specs.Solve.{balanced_of, solve_of};
ghost use Rattle.rw_method.specs.Worked.{input, set_by_rule, by_object, object, view_with, high_dam, low_dam};

/// The minimum release is from 0 to the maximum one, gives the energy, and no smaller one does. There is none exactly where none
/// of these gives it.
#[tactic(auto, using(crate::proofs::LeastRelease::least_is))]
pub fn least_release_is_the_least()
    ensures { (power : ℕ) (head max_release energy : ℤ) → pos 0 ≤ℤ max_release
        → MatchOption (least_release power head max_release energy)
        (HasNoRelease power head max_release energy)
        (IsLeastRelease power head max_release energy) }
{}

/// The minimum release is a quotient.
#[tactic(auto, using(crate::proofs::LeastRelease::quotient_is))]
pub fn least_release_by_a_quotient()
    ensures { (power : ℕ) (max_release head energy : ℤ) → 1 ≤ power → pos 0 ≤ℤ head
        → pos 0 ≤ℤ max_release
        → option_map pos (least_release power head max_release energy)
        ≡ quotient_release power head max_release energy }
{}

/// Where a request counts and puts the outflow, that is the minimum release from 0 to the maximum one that gives the energy which
/// is requested, and the energy is what it gives.
pub fn energy_of_a_request()
    ensures { (initial_storage : ℤ) (table : List Row) (max_release tailwater : ℤ) (power : ℕ)
        (view : View) (request : Content) (puts : List Put)
        → IsKind (Kind.PowerReservoir initial_storage table max_release tailwater power)
        → request_of view ≡ Some request
        → is_put_by_request
        (balanced_of
        (Kind.PowerReservoir initial_storage table max_release tailwater power) view) ≡ true
        → solve_of (Kind.PowerReservoir initial_storage table max_release tailwater power) view
        ≡ Solved.Puts puts
        → GivesRequest (plant table max_release tailwater power) view request puts }
{}

/// A power reservoir at 50 m, 40 m above its tailwater. 1205 m3/step flow out, of which it can release 1000; 57 kWh are
/// requested; and 101 kWh, which no release gives.
pub fn high_dam_values()
    ensures outflow { (own : ObjectNo)
        → solve_of high_dam
        (view_with high_dam own (Some (pos 500000)) (input (pos 100) ∷ input (pos 1205) ∷ []))
        ≡ Solved.Puts (put 2 (pos 498895) 0 ∷ put 3 (pos 49889) 0 ∷ put 5 (pos 100) 0
        ∷ put 6 (pos 1000) 0 ∷ put 7 (pos 205) 0 ∷ []) }
    ensures request { (own : ObjectNo)
        → solve_of high_dam (view_with high_dam own (Some (pos 500000))
        (input (pos 100) ∷ None ∷ None ∷ None ∷ input (pos 57) ∷ []))
        ≡ Solved.Puts
        (put 1 (pos 570) 0 ∷ put 2 (pos 499530) 0 ∷ put 3 (pos 49953) 0 ∷ put 5 (pos 57) 0
        ∷ put 6 (pos 570) 0 ∷ put 7 (pos 0) 0 ∷ []) }
    ensures too_much { (own : ObjectNo)
        → solve_of high_dam (view_with high_dam own (Some (pos 500000))
        (input (pos 100) ∷ None ∷ None ∷ None ∷ input (pos 101) ∷ []))
        ≡ Solved.OutOfRange 4 (pos 101) }
{}

/// A low one at 0.3 m, 0.2 m above its tailwater, where 500 m3 give 1 kWh.
pub fn low_dam_values()
    ensures outflow { (own : ObjectNo)
        → solve_of low_dam
        (view_with low_dam own (Some (pos 3000)) (input (pos 100) ∷ input (pos 1205) ∷ []))
        ≡ Solved.Puts (put 2 (pos 1895) 0 ∷ put 3 (pos 189) 0 ∷ put 5 (pos 2) 0
        ∷ put 6 (pos 1000) 0 ∷ put 7 (pos 205) 0 ∷ []) }
    ensures request { (own : ObjectNo)
        → solve_of low_dam (view_with low_dam own (Some (pos 3000))
        (input (pos 100) ∷ None ∷ None ∷ None ∷ input (pos 1) ∷ []))
        ≡ Solved.Puts (put 1 (pos 500) 0 ∷ put 2 (pos 2600) 0 ∷ put 3 (pos 260) 0 ∷ put 5 (pos 1) 0
        ∷ put 6 (pos 500) 0 ∷ put 7 (pos 0) 0 ∷ []) }
    ensures inflow { (own : ObjectNo)
        → solve_of low_dam (view_with low_dam own (Some (pos 3000))
        (None ∷ None ∷ input (pos 3100) ∷ None ∷ input (pos 1) ∷ []))
        ≡ Solved.Puts (put 0 (pos 600) 0 ∷ put 1 (pos 500) 0 ∷ put 3 (pos 310) 0 ∷ put 5 (pos 1) 0
        ∷ put 6 (pos 500) 0 ∷ put 7 (pos 0) 0 ∷ []) }
    ensures no_number_rises { (five : RuleNo)
        → solve_of low_dam (view_with low_dam (object 1) (Some (pos 3000))
        (by_object (object 2) (pos 600) 0 ∷ by_object (object 1) (pos 100) 0
        ∷ input (pos 3100) ∷ None
        ∷ set_by_rule five (pos 1) 5 ∷ []))
        ≡ Solved.Puts (put 1 (pos 500) 0 ∷ put 3 (pos 310) 0 ∷ put 5 (pos 1) 0
        ∷ put 6 (pos 500) 0 ∷ put 7 (pos 0) 0 ∷ []) }
    ensures gives_way { (own : ObjectNo) (five : RuleNo)
        → solve_of low_dam (view_with low_dam own (Some (pos 3000))
        (input (pos 100) ∷ None ∷ input (pos 3000) ∷ None ∷ set_by_rule five (pos 1) 5 ∷ []))
        ≡ Solved.Puts (put 1 (pos 100) 0 ∷ put 3 (pos 300) 0 ∷ put 5 (pos 0) 0
        ∷ put 6 (pos 100) 0 ∷ put 7 (pos 0) 0 ∷ []) }
    ensures conflict { (own : ObjectNo)
        → solve_of low_dam (view_with low_dam own (Some (pos 3000))
        (input (pos 100) ∷ None ∷ input (pos 3000) ∷ None ∷ input (pos 1) ∷ []))
        ≡ Solved.Conflict 2 (pos 3000) (pos 2600) }
{}

/// Faults that end a run before all else: a request that no release gives, also where the inflow is not known, and before that a
/// storage before that the table does not have. Where the storage before is not known, nothing is put.
pub fn low_dam_faults()
    ensures too_much { (own : ObjectNo)
        → solve_of low_dam
        (view_with low_dam own (Some (pos 3000)) (None ∷ None ∷ None ∷ None ∷ input (pos 3) ∷ []))
        ≡ Solved.OutOfRange 4 (pos 3) }
    ensures past_outside { (own : ObjectNo)
        → solve_of low_dam (view_with low_dam own (Some (pos 9999)) [])
        ≡ Solved.OutOfRange 2 (pos 9999) }
    ensures past_first { (own : ObjectNo)
        → solve_of low_dam
        (view_with low_dam own (Some (pos 9999)) (None ∷ None ∷ None ∷ None ∷ input (pos 3) ∷ []))
        ≡ Solved.OutOfRange 2 (pos 9999) }
    ensures no_past { (own : ObjectNo)
        → solve_of low_dam
        (view_with low_dam own None (input (pos 100) ∷ None ∷ None ∷ None ∷ input (pos 1) ∷ []))
        ≡ Solved.Idle }
{}
