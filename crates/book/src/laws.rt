// The laws of boards and watches, as facts that a proof is asked for.
ghost use Rattle.book.specs.Laws.{RestIsBlank, WatchAlwaysFits};

/// What holds of every board and every watch. There is nothing to run: the promise is the point.
pub fn books_hold()
    ensures blank { RestIsBlank }
    ensures fits { WatchAlwaysFits }
{}
