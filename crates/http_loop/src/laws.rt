//! Laws of connections, each the contract of a function that does nothing.
ghost use Rattle.http_loop.specs.Laws.{IsNeverCutToo, IsReadInOneWay};

/// The bytes of a connection are read as requests in one way.
pub fn read_in_one_way()
    ensures { IsReadInOneWay }
{}

/// Bytes that begin with a request do not end within it.
pub fn never_cut_too()
    ensures { IsNeverCutToo }
{}
