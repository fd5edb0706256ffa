//! Laws of what sets say: nothing runs, each contract is a law.
ghost use Rattle.std.specs.Prelude.{◌≡◌, List, Some};
ghost use Rattle.definitions.specs.Cut.{Segment};
ghost use Rattle.definitions.specs.Events.{Event, advice_fault, order_fault};
ghost use Rattle.definitions.specs.Faults.{SetFault};
ghost use Rattle.definitions.specs.Means.{Advice, Order};
ghost use Rattle.sets_in.specs.Said.{SaysAdvice};
ghost use Rattle.sets_in.specs.SaidOrder.{SaysOrder};
ghost use Rattle.sets_in.specs.TradeFaults.{IsLeastOf, faults_of_advice, faults_of_order};

/// The trade fault of an advice is one at the least position of those that its set may be told.
pub fn advice_fault_is_the_least()
    ensures { (es : List Event) (ss : List Segment) (a : Advice) (f : SetFault) → SaysAdvice ss a
        → advice_fault es a ≡ Some f → IsLeastOf f (faults_of_advice es a) }
{}

/// The trade fault of an order is one at the least position of those that its set may be told.
pub fn order_fault_is_the_least()
    ensures { (es : List Event) (ss : List Segment) (o : Order) (f : SetFault) → SaysOrder ss o
        → order_fault es o ≡ Some f → IsLeastOf f (faults_of_order es o) }
{}
