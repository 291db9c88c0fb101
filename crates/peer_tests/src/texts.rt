//! Requests and their replies, as bytes (RFC 9112; the etcd documentation's JSON gateway).

/// How long a put is, and how long with the watch behind it.
pub(crate) const PUT: usize = 86;

pub(crate) const ALL: usize = 196;

/// A put, and a watch of its key from its revision on.
pub(crate) const REQUESTS: &[u8] =
    b"POST /v3/kv/put HTTP/1.1\r\nHost: t\r\nContent-Length: 29\r\n\r\n\
    {\"key\":\"Zm9v\",\"value\":\"YmFy\"}\
    POST /v3/watch HTTP/1.1\r\nHost: t\r\nContent-Length: 54\r\n\r\n\
    {\"create_request\":{\"key\":\"Zm9v\",\"start_revision\":\"2\"}}";

/// How long the put's reply is, and how long with the stream behind it.
pub(crate) const PUT_REPLY: usize = 147;

pub(crate) const ALL_REPLIES: usize = 556;

/// How long the stream is up to its message that the watch was made.
pub(crate) const CREATED: usize = 207;

/// How long the texts of the replies are: the put's reply, and of the stream its head, the message
/// that it was created, the one event, and the last chunk.
pub(crate) const LENGTHS: [usize; 5] = [147, 98, 109, 197, 5];

/// Their replies, where nobody else changes the store.
pub(crate) const REPLIES: &[u8] =
    b"HTTP/1.1 200 OK\r\nContent-Type: application/json\r\nContent-Length: 76\r\n\r\n\
    {\"header\":{\"cluster_id\":\"1\",\"member_id\":\"1\",\"raft_term\":\"1\",\"revision\":\"2\"}}\
    HTTP/1.1 200 OK\r\nContent-Type: application/json\r\nTransfer-Encoding: chunked\r\n\
    Connection: close\r\n\r\n\
    67\r\n{\"result\":{\"created\":true,\"header\":{\"cluster_id\":\"1\",\"member_id\":\"1\",\
    \"raft_term\":\"1\",\"revision\":\"2\"}}}\n\r\n\
    bf\r\n{\"result\":{\"events\":[{\"kv\":{\"create_revision\":\"2\",\"key\":\"Zm9v\",\
    \"mod_revision\":\"2\",\"value\":\"YmFy\",\"version\":\"1\"}}],\"header\":{\"cluster_id\":\"1\",\
    \"member_id\":\"1\",\"raft_term\":\"1\",\"revision\":\"2\"}}}\n\r\n\
    0\r\n\r\n";
