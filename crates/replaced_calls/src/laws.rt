// The laws of calls that are replaced.
ghost use Rattle.replaced_calls.specs.Laws.{WritingsAdd, OrdersAgree, ChainsExist, RecursionIsExact, OperatorsEnd, NoneLeft};
ghost use Rattle.replaced_calls.specs.ScriptLaws.{ScriptOrdersAgree, ScriptChainsExist, ScriptNoneLeft};

/// Calls that stand some levels inside each other are replaced at once or in two goes.
pub fn writings_add()
    ensures { WritingsAdd }
{}

/// In whatever order calls are replaced, the tree without calls is the same.
pub fn orders_agree()
    ensures { OrdersAgree }
{}

/// The calls of an expression can be replaced one after the other.
pub fn chains_exist()
    ensures { ChainsExist }
{}

/// That an operator's body reaches its own call is told exactly where the calls have a cycle.
pub fn recursion_is_exact()
    ensures { RecursionIsExact }
{}

/// Where no operator reaches its own call, no more calls stand inside each other than there are operators.
pub fn operators_end()
    ensures { OperatorsEnd }
{}

/// Where all calls are of operators and no operator reaches its own call, no call is left.
pub fn none_left()
    ensures { NoneLeft }
{}

/// In whatever order the calls of a script without faults are replaced, the script without calls is the written-out one.
pub fn script_orders_agree()
    ensures { ScriptOrdersAgree }
{}

/// The calls of a script without faults can be replaced one after the other until none is left.
pub fn script_chains_exist()
    ensures { ScriptChainsExist }
{}

/// The written-out script of one without faults has no definition, and no call is left in it.
pub fn script_none_left()
    ensures { ScriptNoneLeft }
{}
