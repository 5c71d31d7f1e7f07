ghost use Rattle.agreement.specs.Holds.{Decides};
ghost use Rattle.agreement.specs.Noise.{HearsThroughNoise};
ghost use Rattle.agreement.specs.Runs.{Agreement, CanBeHeard, ToldByHistory};
ghost use Rattle.agreement.specs.Words.{HistoryInWords};

use carrier::carrier::Carrier;

// Two stations that get the same calls, on any two carriers, refuse the same; displays that hear them hold what the history says, and so the same.
pub fn carriers_agree<C: Carrier, D: Carrier>()
    ensures { Agreement C.Carrier.meaning D.Carrier.meaning }
{}

// On one carrier, with no assumption on labels and buffers: what a station answers, what it sends, and what its display holds is told from the history.
pub fn told_by_history<C: Carrier>()
    ensures { ToldByHistory C.Carrier.meaning }
{}

// What the history says that a class holds, it decides.
pub fn history_decides()
    ensures { Decides }
{}

// When an item start and an item end are refused, and when an item runs, in words.
pub fn history_in_words()
    ensures { HistoryInWords }
{}

// Whatever a station sends, there are full hearings of it.
pub fn can_be_heard<C: Carrier>()
    ensures { CanBeHeard C.Carrier.meaning }
{}

// The hearing laws hold with frames strewn in between that are passed over, answered as heard again, or refused.
pub fn hears_through_noise<C: Carrier>()
    ensures { HearsThroughNoise C.Carrier.meaning }
{}
