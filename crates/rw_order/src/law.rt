//! Proves that in a free basin every order of dispatches settles where one does, with the same values, and that each premise is
//! needed. Each law is the `ensures` of a function that does nothing.
ghost use Rattle.std.specs.Prelude.{◌≡◌, ◌⊎◌, ℕ, ℤ, pos, List, [], Contains, Some, true, false, ◌∷◌};
ghost use Rattle.rw_base.specs.declared.number.Cell.{Cell};
ghost use Rattle.rw_model.specs.Basin.{IsBasin};
ghost use Rattle.rw_model.specs.Draft.{Draft};
ghost use Rattle.rw_model.specs.declared.kind.Kind.TheVariants as Kind;
ghost use Rattle.rw_series.specs.Series.{held};
ghost use Rattle.rw_inputs.specs.Placings.{placings};
ghost use Rattle.rw_inputs.specs.Inputs.{Inputs, IsInputsOf};
ghost use Rattle.rw_run.specs.Dispatch.{cell_at};
ghost use Rattle.rw_run.specs.Frame.{log_after};
ghost use Rattle.rw_run.specs.Log.{Log, cells_of, value_in};
ghost use Rattle.rw_run.specs.Next.{no_rules};
ghost use Rattle.rw_run.specs.RunOf.{IsRunOf, end_of, last_closed};
ghost use Rattle.rw_run.specs.Runs.{IsRun, with_inputs};
ghost use Rattle.rw_run.specs.Waiting.{waiting};
ghost use Rattle.rw_run.specs.declared.run.Run.{Run};
ghost use Rattle.rw_run.specs.declared.run.RunEnd.TheVariants.{Settled, Fault};
ghost use Rattle.rw_dispatch.specs.Pick.{IsPickedRun, Picking, PicksOne, newest, oldest, picked};
ghost use Rattle.rw_order.specs.AnyRun.{IsAnyRun, IsSettledLog, SettlesAs, WaitsBefore};
ghost use Rattle.rw_order.specs.Free.{order_free};
ghost use Rattle.rw_order.specs.Inside.{AreInside};
ghost use Rattle.rw_order.specs.Worked.{chain, chain_inputs, chain_newest, chain_oldest, dry, gauged, losing, losing_fault, losing_inputs, losing_newest, losing_oldest, newest_first, pools, pools_fault, pools_inputs, pools_newest, pools_oldest, two_stores, stores_fault, stores_inputs, stores_newest, stores_oldest, valley, valley_with};

/// Where one order of dispatches settles, every order does: all timesteps are closed, with the same values in the same cells.
/// Who wrote a value may differ. The basin's order has to be free, and the inputs are of values that their slots can have.
pub fn any_order()
    ensures { (basin : Draft) (inputs : List (Cell × ℤ)) (log other : Log)
        → IsBasin basin → order_free basin ≡ true → AreInside basin inputs
        → IsAnyRun basin inputs log → IsSettledLog log → IsAnyRun basin inputs other
        → IsSettledLog other × (last_closed other ≡ basin.control.stamps.count)
        × ((cell : Cell)
        → value_in (cells_of basin log) cell ≡ value_in (cells_of basin other) cell) }
{}

/// Text that is read as inputs gives values that their slots can have.
pub fn inputs_are_inside()
    ensures { (basin : Draft) (inputs : Inputs) → IsInputsOf basin inputs
        → AreInside basin (placings basin inputs) }
{}

/// So where the run of inputs settles without rules, in a basin of which the order is free, every order of dispatches closes as
/// many timesteps, and gives the values of its table.
pub fn any_order_of_a_run()
    ensures { (basin : Draft) (inputs : Inputs) (log other : Log) (run : Run)
        → IsBasin basin → order_free basin ≡ true → IsInputsOf basin inputs
        → IsRun basin no_rules (placings basin inputs) log → IsRunOf basin log run
        → run.end ≡ Settled
        → IsAnyRun basin (placings basin inputs) other
        → IsSettledLog other × (last_closed other ≡ run.closed)
        × ((cell : Cell) → value_in (held run.series) cell ≡ value_in (cells_of basin other) cell) }
{
    any_order();
    inputs_are_inside();
    orders();
}

/// The clauses of `run_any` say of a free basin: the run ended in no fault, with the values of the log.
pub fn settled_values()
    ensures end { (basin : Draft) (log : Log) (run : Run) → SettlesAs basin log run
        → run.end ≡ Settled }
    ensures values { (basin : Draft) (log : Log) (run : Run) (cell : Cell)
        → SettlesAs basin log run
        → value_in (held run.series) cell ≡ value_in (cells_of basin log) cell }
{}

/// A run in which a rule picks one of those that wait is one in any order. The run without rules is that of the rule which
/// picks the one that has waited longest.
#[tactic(auto, using(crate::proofs::Picked::picked_is_any, crate::proofs::Picked::run_is_any))]
pub fn orders()
    ensures picked { (basin : Draft) (rule : Picking) (inputs : List (Cell × ℤ)) (log : Log)
        → PicksOne rule → IsPickedRun basin no_rules rule inputs log → IsAnyRun basin inputs log }
    ensures oldest { (basin : Draft) (inputs : List (Cell × ℤ)) (log : Log)
        → IsPickedRun basin no_rules oldest inputs log → IsRun basin no_rules inputs log }
    ensures is_oldest { (basin : Draft) (inputs : List (Cell × ℤ)) (log : Log)
        → IsRun basin no_rules inputs log → IsPickedRun basin no_rules oldest inputs log }
    ensures run { (basin : Draft) (inputs : List (Cell × ℤ)) (log : Log)
        → IsRun basin no_rules inputs log → IsAnyRun basin inputs log }
{}

/// Oldest and newest pick one of those that wait.
pub fn oldest_and_newest_pick()
    ensures oldest { PicksOne oldest }
    ensures newest { PicksOne newest }
{}

/// The newest is the one that waits since the latest event, and of those of one event the one with the greatest number.
#[tactic(auto, using(crate::proofs::InOrder::newest_waits_least))]
pub fn newest_is_last()
    ensures { (basin : Draft) (log : Log) (object other : ℕ)
        → picked newest log (waiting basin log) ≡ Some object → Contains (waiting basin log) other
        → (other ≡ object) ⊎ WaitsBefore basin log other object }
{}

/// A confluence and the gage below it: dispatched newest first, the gage has nothing to put at first, and is woken. Both orders
/// give 7.
pub fn a_chain()
    ensures free { order_free chain ≡ true }
    ensures oldest { IsPickedRun chain no_rules oldest chain_inputs
        (log_after chain_oldest (with_inputs [] chain_inputs)) }
    ensures newest { IsPickedRun chain no_rules newest chain_inputs
        (log_after chain_newest (with_inputs [] chain_inputs)) }
    ensures turns { IsPickedRun chain no_rules newest_first chain_inputs
        (log_after chain_newest (with_inputs [] chain_inputs)) }
    ensures oldest_value { value_in
        (cells_of chain (log_after chain_oldest (with_inputs [] chain_inputs))) (cell_at 5 1)
        ≡ Some (pos 7) }
    ensures newest_value { value_in
        (cells_of chain (log_after chain_newest (with_inputs [] chain_inputs))) (cell_at 5 1)
        ≡ Some (pos 7) }
{}

/// Basins that are free and basins that are not: one with a canal is where nothing seeps away, and one with a level that a link
/// joins to what is no level. A valley is, and is not with a canal that loses a tenth, with a power reservoir, or with a routed
/// reach.
pub fn free_basins()
    ensures dry { order_free dry ≡ true }
    ensures gauged { order_free gauged ≡ true }
    ensures valley { order_free valley ≡ true }
    ensures canal { order_free (valley_with (Kind.Canal 100)) ≡ false }
    ensures power { order_free
        (valley_with
        (Kind.PowerReservoir (pos 10) ((pos 0, pos 0) ∷ (pos 20, pos 20) ∷ []) (pos 5) (pos 0) 1))
        ≡ false }
    ensures routed { order_free (valley_with (Kind.RoutedReach (pos 1000) 250)) ≡ false }
{}

/// Each premise is needed. A canal that loses half gives 1 of 2 and of 1: the gage above it first, all agree; the canal first,
/// it takes the least inflow, and the gage conflicts.
pub fn losing_orders_differ()
    ensures not_free { order_free losing ≡ false }
    ensures oldest { IsPickedRun losing no_rules oldest losing_inputs
        (log_after losing_oldest (with_inputs [] losing_inputs)) }
    ensures newest { IsPickedRun losing no_rules newest losing_inputs
        (log_after losing_newest (with_inputs [] losing_inputs)) }
    ensures settles { end_of (log_after losing_oldest (with_inputs [] losing_inputs)) ≡ Settled }
    ensures fails { end_of (log_after losing_newest (with_inputs [] losing_inputs))
        ≡ Fault losing_fault }
{}

/// Two reservoirs share an elevation of 10 mm, which the second has by its volume alone. The first one first, it puts 10, and
/// the second agrees; the second one first, it puts the greatest elevation of its storage, 11, and the first conflicts.
pub fn pools_orders_differ()
    ensures not_free { order_free pools ≡ false }
    ensures oldest { IsPickedRun pools no_rules oldest pools_inputs
        (log_after pools_oldest (with_inputs [] pools_inputs)) }
    ensures newest { IsPickedRun pools no_rules newest pools_inputs
        (log_after pools_newest (with_inputs [] pools_inputs)) }
    ensures settles { end_of (log_after pools_oldest (with_inputs [] pools_inputs)) ≡ Settled }
    ensures fails { end_of (log_after pools_newest (with_inputs [] pools_inputs))
        ≡ Fault pools_fault }
{}

/// Two reservoirs share a storage of 3 m3, which the second has by its elevation alone. The first one first, it puts 3, and the
/// second agrees; the second one first, it puts the volume at its elevation, 2, and the first conflicts.
pub fn stores_orders_differ()
    ensures not_free { order_free two_stores ≡ false }
    ensures oldest { IsPickedRun two_stores no_rules oldest stores_inputs
        (log_after stores_oldest (with_inputs [] stores_inputs)) }
    ensures newest { IsPickedRun two_stores no_rules newest stores_inputs
        (log_after stores_newest (with_inputs [] stores_inputs)) }
    ensures settles { end_of (log_after stores_oldest (with_inputs [] stores_inputs)) ≡ Settled }
    ensures fails { end_of (log_after stores_newest (with_inputs [] stores_inputs))
        ≡ Fault stores_fault }
{}
