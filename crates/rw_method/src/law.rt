//! Proves what the definitions of this crate mean. Each law is the `ensures` of a function that does nothing.
ghost use Rattle.std.specs.Prelude.{◌≡◌, ◌≢◌, ◌≤◌, ◌<ℤ◌, ◌≤ℤ◌, ◌+ℤ◌, ℕ, ℤ, pos, neg_ℤ, List, [], ◌∷◌, All, Option, true, false, Some, None};
ghost use Rattle.rw_base.specs.declared.number.ObjectNo.{ObjectNo};
ghost use Rattle.rw_base.specs.declared.number.RuleNo.{RuleNo};
ghost use Rattle.rw_table.specs.Curve.{elev_of};
ghost use Rattle.rw_table.specs.Table.{IsTable, Row};
ghost use Rattle.rw_model.specs.declared.kind.Kind.TheVariants as Kind;
ghost use Rattle.rw_model.specs.declared.kind.Supply.TheVariants as Supply;
ghost use Rattle.rw_method.specs.declared.solved.Solved.TheVariants as Solved;
ghost use Rattle.rw_method.specs.declared.balanced.Balanced.TheVariants as Balanced;
ghost use Rattle.rw_method.specs.declared.term.Term.{Term};
ghost use Rattle.rw_method.specs.declared.share.Share.TheVariants as Share;
ghost use Rattle.rw_method.specs.Contents.{evaporated};
ghost use Rattle.rw_method.specs.Term.{IsShare, brought, least_inflow, least_routed, per_mille};
ghost use Rattle.rw_method.specs.Solving.{weakest, solved_balance, GivesWay, IsSolved, IsGreatestBeside};
ghost use Rattle.rw_method.specs.Puts.{put};
ghost use Rattle.rw_method.specs.Solve.{balanced_of, solve_of};
ghost use Rattle.rw_method.specs.View.{given};
ghost use Rattle.rw_method.specs.declared.given.Given.{Given};
ghost use Rattle.rw_method.specs.declared.places.TheConstants.{INFLOW, OUTFLOW};
ghost use Rattle.rw_method.specs.declared.view.View.{View};
ghost use Rattle.rw_method.specs.Worked.{input, set_by_rule, view_with, worked_rows};

/// The term that gives way is one that is not given, or else one of the lowest priority, and of several such the last.
#[tactic(auto, using(crate::proofs::GivingWay::gives_way))]
pub fn term_that_gives_way()
    ensures { (first : Term) (rest : List Term) → GivesWay (first ∷ rest) (weakest first rest) }
{}

/// Where a term is solved, it is the one that gives way, the others are all given, and its value makes the balance true.
#[tactic(auto, using(crate::proofs::SolvedTerm::solved_term))]
pub fn solved_term()
    ensures { (steady : ℤ) (terms : List Term) (place number : ℕ) (value : ℤ)
        → All (λ (term : Term). IsShare term.share) terms
        → solved_balance (Some steady) terms ≡ Balanced.Solves place value number
        → IsSolved steady terms place value }
{}

/// A solved term has the lowest priority of the others, and 0 where none of them is given.
pub fn number_of_a_solved_term()
    ensures { (steady : ℤ) (terms : List Term) (place number : ℕ) (value : ℤ)
        → solved_balance (Some steady) terms ≡ Balanced.Solves place value number
        → IsGreatestBeside place terms number }
{}

/// The least inflow of a canal conveys the outflow, and each lesser inflow conveys less, but for an outflow of 0: that comes
/// from no inflow.
#[tactic(auto, using(crate::proofs::LeastInflow::conveyed, crate::proofs::LeastInflow::least))]
pub fn least_inflow_of_a_canal()
    ensures conveyed { (seepage : ℕ) (outflow : ℤ) → seepage ≤ 999
        → brought (Share.Conveys seepage) (least_inflow seepage outflow) ≡ outflow }
    ensures least { (seepage : ℕ) (outflow inflow : ℤ) → seepage ≤ 999 → outflow ≢ pos 0
        → inflow <ℤ least_inflow seepage outflow
        → brought (Share.Conveys seepage) inflow <ℤ outflow }
    ensures dry { (seepage : ℕ) → least_inflow seepage (pos 0) ≡ pos 0 }
{}

/// The least inflow of a routed reach lets exactly the outflow go, and each lesser inflow lets less go.
#[tactic(auto, using(crate::proofs::LeastInflow::routed, crate::proofs::LeastInflow::least_of_routed))]
pub fn least_inflow_of_a_routed_reach()
    ensures exact { (content : ℤ) (release : ℕ) (outflow : ℤ) → 1 ≤ release → release ≤ 1000
        → brought (Share.Routes content release) (least_routed content release outflow) ≡ outflow }
    ensures least { (content : ℤ) (release : ℕ) (outflow inflow : ℤ) → 1 ≤ release
        → inflow <ℤ least_routed content release outflow
        → brought (Share.Routes content release) inflow <ℤ outflow }
{}

/// Where the inflow of a routed reach is solved, exactly the outflow that is given is released, and with each smaller inflow
/// less.
#[tactic(auto, using(crate::proofs::SolvedInflow::solved_exactly, crate::proofs::SolvedInflow::solved_least_of_all))]
pub fn solved_inflow_of_a_routed_reach()
    ensures exact { (initial_content : ℤ) (release : ℕ) (view : View) (content : ℤ)
        (outflow : Given) (inflow : ℤ) (number : ℕ)
        → 1 ≤ release → release ≤ 1000 → view.past ≡ Some content
        → given view OUTFLOW ≡ Some outflow
        → balanced_of (Kind.RoutedReach initial_content release) view
        ≡ Balanced.Solves INFLOW inflow number
        → per_mille (content +ℤ inflow) release ≡ outflow.value }
    ensures least { (initial_content : ℤ) (release : ℕ) (view : View) (content : ℤ)
        (outflow : Given) (inflow : ℤ) (number : ℕ)
        (other : ℤ) → 1 ≤ release → view.past ≡ Some content → given view OUTFLOW ≡ Some outflow
        → balanced_of (Kind.RoutedReach initial_content release) view
        ≡ Balanced.Solves INFLOW inflow number
        → other <ℤ inflow → per_mille (content +ℤ other) release <ℤ outflow.value }
{}

/// Worked values of a confluence with inflows of 5 and 6 m3/step and an outflow of 10, set by rules and given.
pub fn confluence_values()
    ensures last_in_a_tie { (own : ObjectNo) (two three : RuleNo)
        → solve_of Kind.Confluence (view_with Kind.Confluence own None
        (set_by_rule two (pos 5) 2 ∷ set_by_rule three (pos 6) 3
        ∷ set_by_rule three (pos 10) 3 ∷ []))
        ≡ Solved.Puts (put 2 (pos 11) 3 ∷ []) }
    ensures greatest_number { (own : ObjectNo) (two three : RuleNo)
        → solve_of Kind.Confluence (view_with Kind.Confluence own None
        (set_by_rule two (pos 5) 2 ∷ set_by_rule three (pos 6) 4
        ∷ set_by_rule three (pos 10) 3 ∷ []))
        ≡ Solved.Puts (put 1 (pos 5) 3 ∷ []) }
    ensures conflict { (own : ObjectNo)
        → solve_of Kind.Confluence
        (view_with Kind.Confluence own None (input (pos 5) ∷ input (pos 6) ∷ input (pos 10) ∷ []))
        ≡ Solved.Conflict 2 (pos 10) (pos 11) }
{}

/// A reach of lag 2, into which 1 m3/step flowed two timesteps ago.
pub fn reach_values()
    ensures lagged { (own : ObjectNo)
        → solve_of (Kind.Reach 2 (pos 1 ∷ pos 2 ∷ []) false false false)
        (view_with (Kind.Reach 2 (pos 1 ∷ pos 2 ∷ []) false false false) own (Some (pos 1))
        (input (pos 5) ∷ []))
        ≡ Solved.Puts (put 1 (pos 1) 0 ∷ []) }
{}

/// A canal of which 100 parts of a thousand seep away, and a user who consumes 333 of a thousand.
pub fn canal_and_user_values()
    ensures upstream { (own : ObjectNo)
        → solve_of (Kind.Canal 100)
        (view_with (Kind.Canal 100) own None (None ∷ input (pos 90) ∷ []))
        ≡ Solved.Puts (put 0 (pos 99) 0 ∷ put 2 (pos 9) 0 ∷ []) }
    ensures downstream { (own : ObjectNo)
        → solve_of (Kind.Canal 100) (view_with (Kind.Canal 100) own None (input (pos 99) ∷ []))
        ≡ Solved.Puts (put 1 (pos 90) 0 ∷ put 2 (pos 9) 0 ∷ []) }
    ensures dry { (own : ObjectNo)
        → solve_of (Kind.Canal 100)
        (view_with (Kind.Canal 100) own None (None ∷ input (pos 0) ∷ []))
        ≡ Solved.Puts (put 0 (pos 0) 0 ∷ put 2 (pos 0) 0 ∷ []) }
    ensures request { (own : ObjectNo)
        → solve_of (Kind.WaterUser 333 Supply.Request)
        (view_with (Kind.WaterUser 333 Supply.Request) own None (input (pos 105) ∷ []))
        ≡ Solved.Puts (put 1 (pos 105) 0 ∷ put 2 (pos 34) 0 ∷ put 3 (pos 71) 0 ∷ []) }
{}

/// A routed reach that held 1000 m3 at first and releases a quarter in each timestep. What is rounded off stays.
pub fn routed_values()
    ensures first { (own : ObjectNo)
        → solve_of (Kind.RoutedReach (pos 1000) 250)
        (view_with (Kind.RoutedReach (pos 1000) 250) own (Some (pos 1000)) (input (pos 200) ∷ []))
        ≡ Solved.Puts (put 1 (pos 300) 0 ∷ put 2 (pos 900) 0 ∷ []) }
    ensures second { (own : ObjectNo)
        → solve_of (Kind.RoutedReach (pos 1000) 250)
        (view_with (Kind.RoutedReach (pos 1000) 250) own (Some (pos 900)) (input (pos 0) ∷ []))
        ≡ Solved.Puts (put 1 (pos 225) 0 ∷ put 2 (pos 675) 0 ∷ []) }
    ensures third { (own : ObjectNo)
        → solve_of (Kind.RoutedReach (pos 1000) 250)
        (view_with (Kind.RoutedReach (pos 1000) 250) own (Some (pos 675)) (input (pos 0) ∷ []))
        ≡ Solved.Puts (put 1 (pos 168) 0 ∷ put 2 (pos 507) 0 ∷ []) }
    ensures upstream { (own : ObjectNo)
        → solve_of (Kind.RoutedReach (pos 1000) 250)
        (view_with (Kind.RoutedReach (pos 1000) 250) own (Some (pos 1000))
        (None ∷ input (pos 300) ∷ []))
        ≡ Solved.Puts (put 0 (pos 200) 0 ∷ put 2 (pos 900) 0 ∷ []) }
    ensures no_past { (own : ObjectNo)
        → solve_of (Kind.RoutedReach (pos 1000) 250)
        (view_with (Kind.RoutedReach (pos 1000) 250) own None (input (pos 200) ∷ []))
        ≡ Solved.Idle }
    ensures too_little { (own : ObjectNo)
        → solve_of (Kind.RoutedReach (pos 1000) 250)
        (view_with (Kind.RoutedReach (pos 1000) 250) own (Some (pos 1000))
        (None ∷ input (pos 100) ∷ []))
        ≡ Solved.OutOfRange 0 (neg_ℤ (pos 600)) }
    ensures conflict { (own : ObjectNo)
        → solve_of (Kind.RoutedReach (pos 1000) 250)
        (view_with (Kind.RoutedReach (pos 1000) 250) own (Some (pos 1000))
        (input (pos 200) ∷ input (pos 301) ∷ []))
        ≡ Solved.Conflict 1 (pos 301) (pos 300) }
{}

/// A reservoir without a table that held 1000 m3.
pub fn storage_values()
    ensures outflow { (own : ObjectNo)
        → solve_of (Kind.Reservoir (pos 1000) None false false false false None)
        (view_with (Kind.Reservoir (pos 1000) None false false false false None) own
        (Some (pos 1000))
        (input (pos 100) ∷ None ∷ input (pos 1020) ∷ []))
        ≡ Solved.Puts (put 1 (pos 80) 0 ∷ []) }
    ensures conflict { (own : ObjectNo)
        → solve_of (Kind.Reservoir (pos 1000) None false false false false None)
        (view_with (Kind.Reservoir (pos 1000) None false false false false None) own
        (Some (pos 1000))
        (input (pos 100) ∷ input (pos 50) ∷ input (pos 1020) ∷ []))
        ≡ Solved.Conflict 2 (pos 1020) (pos 1050) }
    ensures empty { (own : ObjectNo)
        → solve_of (Kind.Reservoir (pos 1000) None false false false false None)
        (view_with (Kind.Reservoir (pos 1000) None false false false false None) own
        (Some (pos 1000))
        (input (pos 0) ∷ input (pos 1001) ∷ []))
        ≡ Solved.OutOfRange 2 (neg_ℤ (pos 1)) }
    ensures idle { (own : ObjectNo)
        → solve_of (Kind.Reservoir (pos 1000) None false false false false None)
        (view_with (Kind.Reservoir (pos 1000) None false false false false None) own
        (Some (pos 1000)) (input (pos 100) ∷ []))
        ≡ Solved.Idle }
{}

/// A reservoir with the worked table that held 250 m3, at an elevation of 501 mm.
pub fn elevation_values()
    ensures evaporation { (own : ObjectNo)
        → solve_of (Kind.Reservoir (pos 250) (Some worked_rows) false false false true None)
        (view_with (Kind.Reservoir (pos 250) (Some worked_rows) false false false true None) own
        (Some (pos 250))
        (input (pos 0) ∷ input (pos 0) ∷ None ∷ None ∷ None ∷ None ∷ None ∷ input (pos 100) ∷ []))
        ≡ Solved.Puts (put 2 (pos 200) 0 ∷ put 3 (pos 401) 0 ∷ put 8 (pos 50) 0 ∷ []) }
    ensures spill { (own : ObjectNo)
        → solve_of
        (Kind.Reservoir (pos 250) (Some worked_rows) false false false false (Some (pos 60)))
        (view_with
        (Kind.Reservoir (pos 250) (Some worked_rows) false false false false (Some (pos 60))) own
        (Some (pos 250))
        (input (pos 0) ∷ input (pos 80) ∷ []))
        ≡ Solved.Puts
        (put 2 (pos 170) 0 ∷ put 3 (pos 341) 0 ∷ put 9 (pos 60) 0 ∷ put 10 (pos 20) 0 ∷ []) }
    ensures agreement { (own : ObjectNo)
        → solve_of (Kind.Reservoir (pos 250) (Some worked_rows) false false false false None)
        (view_with (Kind.Reservoir (pos 250) (Some worked_rows) false false false false None) own
        (Some (pos 250))
        (input (pos 0) ∷ None ∷ input (pos 250) ∷ input (pos 500) ∷ []))
        ≡ Solved.Puts (put 1 (pos 0) 0 ∷ []) }
    ensures disagreement { (own : ObjectNo)
        → solve_of (Kind.Reservoir (pos 250) (Some worked_rows) false false false false None)
        (view_with (Kind.Reservoir (pos 250) (Some worked_rows) false false false false None) own
        (Some (pos 250))
        (input (pos 0) ∷ None ∷ input (pos 250) ∷ input (pos 499) ∷ []))
        ≡ Solved.Conflict 3 (pos 499) (pos 501) }
    ensures past_outside_the_table { (own : ObjectNo)
        → solve_of (Kind.Reservoir (pos 250) (Some worked_rows) false false false true None)
        (view_with (Kind.Reservoir (pos 250) (Some worked_rows) false false false true None) own
        (Some (pos 9999))
        (input (pos 0) ∷ input (pos 0) ∷ None ∷ None ∷ None ∷ None ∷ None ∷ input (pos 100) ∷ []))
        ≡ Solved.OutOfRange 2 (pos 9999) }
{}

/// A table gives what evaporates of each storage that it has, at a rate that is not below 0.
pub fn tables_give_evaporation()
    ensures { (rows : List Row) (storage rate elevation : ℤ)
        → IsTable rows → elev_of rows storage ≡ Some elevation → pos 0 ≤ℤ rate
        → (amount : ℤ) × (evaporated rows storage rate ≡ Some amount) }
{}

/// At a rate below 0 it may give nothing: of 250 m3 at -5000 mm there is no volume, and 0 is put. No reader takes such a rate.
pub fn a_rate_below_zero()
    ensures nothing { evaporated worked_rows (pos 250) (neg_ℤ (pos 5000)) ≡ None }
    ensures put { (own : ObjectNo)
        → solve_of (Kind.Reservoir (pos 250) (Some worked_rows) false false false true None)
        (view_with (Kind.Reservoir (pos 250) (Some worked_rows) false false false true None) own
        (Some (pos 250)) (input (pos 0) ∷ input (pos 0) ∷ None ∷ None ∷ None ∷ None ∷ None
        ∷ input (neg_ℤ (pos 5000)) ∷ []))
        ≡ Solved.Puts (put 2 (pos 250) 0 ∷ put 3 (pos 501) 0 ∷ put 8 (pos 0) 0 ∷ []) }
{}
