// The main promise: after any call of any chain its three statements hold, over any filter.
#![tactic(auto)]

ghost use Rattle.rules.specs.Book.{Book};
ghost use Rattle.rules.specs.Promise.{Chain, Promise};
ghost use Rattle.rules.specs.State.{State};

use filters::filter::Filter;

pub fn main_promise<F: Filter, C: Copy>()
    ensures { (s : State F C) (b : Book C) → Chain F.Filter s b → Promise F.Filter s b }
{}
