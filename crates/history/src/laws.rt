// What holds of every history, for whoever makes the calls one by one.
ghost use Rattle.history.specs.Laws.{CallsDetermineHistories, EveryHistoryKeepsTheLaws, MemoryStaysSound, NoCallFindsMemoryUnsound};

pub fn histories_keep_the_laws()
    ensures { EveryHistoryKeepsTheLaws }
{}

pub fn calls_determine_histories()
    ensures { CallsDetermineHistories }
{}

pub fn memory_stays_sound()
    ensures stays { MemoryStaysSound }
    ensures never { NoCallFindsMemoryUnsound }
{}
