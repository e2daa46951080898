//! Proves what events leave in an object's slots, whatever its kind. Each law is the `ensures` of a function that does nothing.
ghost use Rattle.std.specs.Prelude.{◌≡◌, ℕ, pos, List, [], ◌∷◌, Contains, None, Some, false, true};
ghost use Rattle.std.specs.List.{AllByRecursion};
ghost use Rattle.rw_model.specs.Kind.{IsKind};
ghost use Rattle.rw_model.specs.declared.content.Content.{Content};
ghost use Rattle.rw_base.specs.declared.number.ObjectNo.{ObjectNo};
ghost use Rattle.rw_model.specs.declared.kind.Kind.{Kind};
ghost use Rattle.rw_model.specs.declared.kind.Kind.TheVariants as K;
ghost use Rattle.rw_model.specs.declared.kind.Supply.TheVariants as Supply;
ghost use Rattle.rw_method.specs.Worked.{input, low_dam, view_with, worked_rows};
ghost use Rattle.rw_method.specs.Balanced.{IsBalanced};
ghost use Rattle.rw_method.specs.Left.{Left, is_own};
ghost use Rattle.rw_method.specs.Passing.{IsAfterOthers, IsAfterOwn, IsOwnFall};
ghost use Rattle.rw_method.specs.Solve.{solve_of};
ghost use Rattle.rw_method.specs.View.{known};
ghost use Rattle.rw_method.specs.declared.put.Put.{Put};
ghost use Rattle.rw_method.specs.declared.solved.Solved.TheVariants as Solved;
ghost use Rattle.rw_method.specs.declared.view.View.{View};

/// `Left` holds of an object's slots where a timestep begins, while none of them was written by the object itself, and goes on
/// to hold, whatever others write and whatever its own dispatches put.
pub fn slots_are_left()
    ensures begins { (kind : Kind) (view : View)
        → ((place : ℕ) (content : Content) → known view place ≡ Some content
        → is_own view content ≡ false) → Left kind view }
    ensures others { (kind : Kind) (old new : View) → IsAfterOthers old new
        → Left kind old → Left kind new }
    ensures own { (kind : Kind) (old new : View) (puts : List Put) → IsKind kind → Left kind old
        → solve_of kind old ≡ Solved.Puts puts → IsAfterOwn old new puts → Left kind new }
{}

/// No put over what the object itself wrote has a lower priority, and two puts of a dispatch stand in different places.
pub fn own_puts_fall()
    ensures falls { (kind : Kind) (view : View) (puts : List Put) → IsKind kind → Left kind view
        → solve_of kind view ≡ Solved.Puts puts → AllByRecursion (IsOwnFall view) puts }
    ensures apart { (kind : Kind) (view : View) (puts : List Put) → IsKind kind
        → solve_of kind view ≡ Solved.Puts puts → (one other : Put) → Contains puts one
        → Contains puts other → one.place ≡ other.place → one ≡ other }
{}

/// The slots of an object are balanced once its dispatch has put what it answers, and where it is idle.
pub fn slots_are_balanced()
    ensures puts { (kind : Kind) (old new : View) (puts : List Put) → IsKind kind
        → solve_of kind old ≡ Solved.Puts puts → IsAfterOwn old new puts → IsBalanced kind new }
    ensures idle { (kind : Kind) (view : View) → Left kind view
        → solve_of kind view ≡ Solved.Idle → IsBalanced kind view }
{}

/// Slots are not always balanced: of each kind there are some whose terms are known, and whose sum or derived slot is a unit off.
pub fn unbalanced()
    ensures gage { (own : ObjectNo) → ¬ IsBalanced (K.Gage)
        (view_with
        (K.Gage) own None
        (input (pos 1) ∷ input (pos 2) ∷ [])) }
    ensures confluence { (own : ObjectNo) → ¬ IsBalanced (K.Confluence)
        (view_with
        (K.Confluence) own None
        (input (pos 5) ∷ input (pos 6) ∷ input (pos 10) ∷ [])) }
    ensures bifurcation { (own : ObjectNo) → ¬ IsBalanced (K.Bifurcation)
        (view_with
        (K.Bifurcation) own None
        (input (pos 5) ∷ input (pos 3) ∷ input (pos 3) ∷ [])) }
    ensures reach { (own : ObjectNo) → ¬ IsBalanced (K.Reach 0 [] false false false)
        (view_with
        (K.Reach 0 [] false false false) own None
        (input (pos 5) ∷ input (pos 6) ∷ [])) }
    ensures lagged { (own : ObjectNo)
        → ¬ IsBalanced (K.Reach 2 (pos 1 ∷ pos 2 ∷ []) false false false)
        (view_with
        (K.Reach 2 (pos 1 ∷ pos 2 ∷ []) false false false) own (Some (pos 1))
        (input (pos 5) ∷ input (pos 5) ∷ [])) }
    ensures storage { (own : ObjectNo)
        → ¬ IsBalanced (K.Reservoir (pos 1000) None false false false false None)
        (view_with
        (K.Reservoir (pos 1000) None false false false false None) own (Some (pos 1000))
        (input (pos 100) ∷ input (pos 50) ∷ input (pos 1020) ∷ [])) }
    ensures spill { (own : ObjectNo)
        → ¬ IsBalanced (K.Reservoir (pos 1000) None false false false false (Some (pos 60)))
        (view_with
        (K.Reservoir (pos 1000) None false false false false (Some (pos 60))) own (Some (pos 1000))
        (input (pos 0) ∷ input (pos 80) ∷ input (pos 920) ∷ None ∷ None ∷ None ∷ None ∷ None
        ∷ None ∷ input (pos 60) ∷ input (pos 10) ∷ [])) }
    ensures evaporation { (own : ObjectNo)
        → ¬ IsBalanced (K.Reservoir (pos 250) (Some worked_rows) false false false true None)
        (view_with
        (K.Reservoir (pos 250) (Some worked_rows) false false false true None) own (Some (pos 250))
        (input (pos 0) ∷ input (pos 0) ∷ input (pos 200) ∷ input (pos 401) ∷ None ∷ None ∷ None
        ∷ input (pos 100) ∷ input (pos 49) ∷ [])) }
    ensures user { (own : ObjectNo) → ¬ IsBalanced (K.WaterUser 333 Supply.Request)
        (view_with
        (K.WaterUser 333 Supply.Request) own None
        (input (pos 105) ∷ input (pos 105) ∷ input (pos 34) ∷ input (pos 70) ∷ [])) }
    ensures user_by_rule { (own : ObjectNo) → ¬ IsBalanced (K.WaterUser 333 Supply.Rule)
        (view_with
        (K.WaterUser 333 Supply.Rule) own None
        (input (pos 105) ∷ input (pos 105) ∷ input (pos 35) ∷ input (pos 71) ∷ [])) }
    ensures canal { (own : ObjectNo) → ¬ IsBalanced (K.Canal 100)
        (view_with
        (K.Canal 100) own None
        (input (pos 99) ∷ input (pos 91) ∷ input (pos 8) ∷ [])) }
    ensures seepage { (own : ObjectNo) → ¬ IsBalanced (K.Canal 100)
        (view_with
        (K.Canal 100) own None
        (input (pos 99) ∷ input (pos 90) ∷ input (pos 8) ∷ [])) }
    ensures energy { (own : ObjectNo) → ¬ IsBalanced (low_dam)
        (view_with
        (low_dam) own (Some (pos 3000))
        (input (pos 100) ∷ input (pos 1205) ∷ input (pos 1895) ∷ input (pos 189) ∷ None
        ∷ input (pos 3) ∷ input (pos 1000) ∷ input (pos 205) ∷ [])) }
    ensures level { (own : ObjectNo) → ¬ IsBalanced (low_dam)
        (view_with
        (low_dam) own (Some (pos 3000))
        (input (pos 100) ∷ input (pos 1205) ∷ input (pos 1895) ∷ input (pos 190) ∷ None
        ∷ input (pos 2) ∷ input (pos 1000) ∷ input (pos 205) ∷ [])) }
    ensures release { (own : ObjectNo) → ¬ IsBalanced (low_dam)
        (view_with
        (low_dam) own (Some (pos 3000))
        (input (pos 100) ∷ input (pos 1205) ∷ input (pos 1895) ∷ input (pos 189) ∷ None
        ∷ input (pos 2) ∷ input (pos 999) ∷ input (pos 205) ∷ [])) }
    ensures routed { (own : ObjectNo) → ¬ IsBalanced (K.RoutedReach (pos 1000) 250)
        (view_with
        (K.RoutedReach (pos 1000) 250) own (Some (pos 1000))
        (input (pos 200) ∷ input (pos 301) ∷ input (pos 899) ∷ [])) }
    ensures content { (own : ObjectNo) → ¬ IsBalanced (K.RoutedReach (pos 1000) 250)
        (view_with
        (K.RoutedReach (pos 1000) 250) own (Some (pos 1000))
        (input (pos 200) ∷ input (pos 300) ∷ input (pos 901) ∷ [])) }
{}
