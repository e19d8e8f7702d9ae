// The history theorem, for every kind and every channel.
ghost use Rattle.history.specs.History.{CarriesOn, HistoryStands};
ghost use Rattle.history.specs.Lines.{line};

use channel::channel::Channel;
use lattice::kind::Kind;

// After every list of acts, ships, deliveries and restarts, refused ones counted, the group agrees with the book.
pub fn history_stands<K: Kind, C: Channel>()
    ensures { HistoryStands K.ops (line C.waits C.ready C.denies C.puts C.takes) }
{}

// A call that does its step, as `Step` defines it, carries the promise on: whatever list of calls came before it, the state after it
// is reached by the list with this call, and the promise stands there.
pub fn calls_go_on<K: Kind, C: Channel>()
    ensures { CarriesOn K.ops (line C.waits C.ready C.denies C.puts C.takes) }
{}
