// What holds of datagrams and drafts, for every kind.
ghost use Rattle.wire.specs.Datagrams.{ReadsBack, ReadsOnce};
ghost use Rattle.wire.specs.Drafts.{DraftsBegin, DraftsGrow};

use lattice::kind::Kind;

// What is written reads back equal, and each datagram that reads is the one its contents write.
pub fn datagrams_stand<K: Kind>()
    ensures back { ReadsBack K.ops }
    ensures once { ReadsOnce K.ops }
{}

// A draft's buffer opens with the parts added so far, so what a draft accepts a reader accepts too.
pub fn drafts_stand<K: Kind>()
    ensures begin { DraftsBegin K.ops }
    ensures grow { DraftsGrow K.ops }
{}
