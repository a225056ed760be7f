// Laws of the definitions. Each is the contract of a function that does nothing.
ghost use Rattle.std.specs.Prelude.{◌≡◌, ◌==◌, ℕ, Bool, false, true, OnOk, Some, Result, List, ◌∷◌, [], ◌++◌};
ghost use Rattle.std.specs.List.{list_any};
ghost use Rattle.pva_frames.specs.declared.event.Event.{Event};
ghost use Rattle.pva_wire.specs.declared.order.Order.{Order};
ghost use Rattle.pvd_type.specs.declared.memory.NoMemory.{NoMemory};
ghost use Rattle.journal_core.specs.Moments.{Moment};
ghost use Rattle.desk_api.specs.Calls.{IsEnding};
ghost use Rattle.desk_api.specs.Living.{lives};
ghost use Rattle.desk_api.specs.declared.history.SiteData.{SiteData};
ghost use Rattle.desk_api.specs.declared.mark.Mark.{Mark};
ghost use Rattle.desk_api.specs.declared.sub.Sub.{Sub};
ghost use Rattle.pvd_desc.specs.Types.{Types};
ghost use Rattle.srv_session.specs.Rows.{steered};
ghost use Rattle.srv_session.specs.Tasks.{over_range, started_by, steering};
ghost use Rattle.srv_session.specs.State.{State, Asked, opening, slots_of, due, is_due};
ghost use Rattle.srv_session.specs.Steps.{Step, one_sent, AreSteps, AreEndings, BeginFree, NextPart, IsDrained, after_part, state_after, marks_of, out_of, turns_of};
ghost use Rattle.srv_session.specs.Windowing.{WindowsHold};
ghost use Rattle.srv_session.specs.Calls.{Shown, AreLiving, ArePopsOf, Handles, Holds, Pumps, sends};
ghost use Rattle.srv_session.specs.declared.stop.SessionStop.{SessionStop};

/// A session that holds its subscriptions still does so behind an event and behind a pump. Whatever either answered, the
/// subscriptions that it then has live, each in a slot of its own. As one of these ends the others live on.
pub fn subscriptions_are_held()
    ensures handled { (old new : Shown) (moment : Moment) (e : Event) (result : Result (Unit {0}) SessionStop) → Handles old new moment e result → Holds old.seat.log old.state → OnOk result (Holds new.seat.log new.state) }
    ensures pumped { (old new : Shown) (result : Result Bool NoMemory) → Pumps old new result → Holds old.seat.log old.state → OnOk result (Holds new.seat.log new.state) }
    ensures live_handled { (old new : Shown) (moment : Moment) (e : Event) (result : Result (Unit {0}) SessionStop) → Handles old new moment e result → Holds old.seat.log old.state → AreLiving new.seat.log (slots_of new.state.requests) }
    ensures live_pumped { (old new : Shown) (result : Result Bool NoMemory) → Pumps old new result → Holds old.seat.log old.state → AreLiving new.seat.log (slots_of new.state.requests) }
    ensures steps { (site : SiteData) (order : Order) (steps : List Step) → AreSteps site (opening order) steps → BeginFree (marks_of steps) → Holds (marks_of steps) (state_after site (opening order) steps) }
    ensures one_ends { (log : List Mark) (slot : ℕ) (slots : List ℕ) (mark : Mark) → AreLiving log (slot ∷ slots) → IsEnding slot (mark ∷ []) → AreLiving (log ++ mark ∷ []) slots }
{}

/// Each subscription that lives by the marks of a dialogue is one of its requests', and behind its endings none lives, also where
/// memory ran out in a row or in a pop.
pub fn subscriptions_end()
    ensures known { (site : SiteData) (order : Order) (steps : List Step) → AreSteps site (opening order) steps → (slot : ℕ) → lives (marks_of steps) slot ≡ true → list_any (λ x. x == slot) (slots_of (state_after site (opening order) steps).requests) ≡ true }
    ensures ended { (site : SiteData) (order : Order) (steps : List Step) (endings : List Mark) → AreSteps site (opening order) steps → AreEndings (state_after site (opening order) steps) endings → (slot : ℕ) → lives (marks_of steps ++ endings) slot ≡ false }
    ensures behind { (site : SiteData) (order : Order) (steps : List Step) (events : List Event) (more endings : List Mark) → AreSteps site (opening order) steps → NextPart site (state_after site (opening order) steps) events more → AreEndings (after_part site (state_after site (opening order) steps) events more) endings → (slot : ℕ) → lives ((marks_of steps ++ more) ++ endings) slot ≡ false }
{}

/// In every dialogue that follows the rules each pipelined monitor has what is free: never is more sent.
pub fn windows_hold()
    ensures { (site : SiteData) (order : Order) (steps : List Step) → AreSteps site (opening order) steps → WindowsHold site (opening order) steps }
{}

/// A session is drained where a pump of all monitors that were due sent nothing.
pub fn pumps_drain()
    ensures { (site : SiteData) (s : State) (steps pumped : List Step) → ArePopsOf (due (state_after site s steps).requests) pumped → AreSteps site (state_after site s steps) pumped → sends pumped ≡ false → IsDrained site s (steps ++ pumped) }
{}

/// Events and pops in one order, with the same marks, give one output, whichever of the marks are the endings, where no subscription
/// begins in a slot in which one lives.
pub fn one_output()
    ensures { (site : SiteData) (order : Order) (xs ys : List Step) (k l : List Mark) → AreSteps site (opening order) xs → AreSteps site (opening order) ys → BeginFree (marks_of xs) → turns_of xs ≡ turns_of ys → marks_of xs ++ k ≡ marks_of ys ++ l → out_of site (opening order) xs ≡ out_of site (opening order) ys }
{}

/// Worked rows of a started monitor of which one more update may be sent: it is due, it isn't once one was sent, and it is again
/// once one was acknowledged; 2,147,483,647 acknowledged while one is free are too many. Bit 04 starts where bit 40 stands too, and
/// else stops.
pub fn a_worked_window()
    ensures free { (ask : Asked) (sub : Sub) → is_due (Some (record ask { sub = Some sub; started = true; window = Some 1 })) ≡ true }
    ensures spent { (ask : Asked) (sub : Sub) → is_due (Some (one_sent (record ask { sub = Some sub; started = true; window = Some 1 }))) ≡ false }
    ensures again { (ask : Asked) (sub : Sub) → is_due (Some (steered (Some 1) true (one_sent (record ask { sub = Some sub; started = true; window = Some 1 })))) ≡ true }
    ensures over { (types : Types) (req : ℕ) (ask : Asked) (sub : Sub) → steering types req 0x80 (Some 2147483647) (record ask { sub = Some sub; started = true; window = Some 1 }) ≡ over_range }
    ensures bits { (was : Bool) → (started_by 0x44 was ≡ true) × (started_by 0x04 was ≡ false) × (started_by 0x80 was ≡ was) }
{}
