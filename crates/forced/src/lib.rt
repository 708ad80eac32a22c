// The answers of calls are forced by the rules, where the filter leaves nothing open.
#![tactic(auto)]

ghost use Rattle.forced.specs.Determined.{Determined};

use filters::filter::Filter;

// For a filter whose new value and whose adding are functions, each step is the one that is played.
pub fn forced_answers<F: Filter, C: Copy>()
    ensures { Determined F.Filter C }
{}
