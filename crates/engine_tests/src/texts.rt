//! The bodies of requests and their replies, in the worked rows.
pub(super) const PUT: &str = "/v3/kv/put";

pub(super) const RANGE: &str = "/v3/kv/range";

pub(super) const DELETE: &str = "/v3/kv/deleterange";

pub(super) const COMPACT: &str = "/v3/kv/compaction";

pub(super) const WATCH: &str = "/v3/watch";

pub(super) const GRANT: &str = "/v3/lease/grant";

pub(super) const TIME_TO_LIVE: &str = "/v3/lease/timetolive";

pub(super) const KEEP_ALIVE: &str = "/v3/lease/keepalive";

pub(super) const REVOKE: &str = "/v3/lease/revoke";

pub(super) const PUT_FOO: &str = "{\"key\":\"Zm9v\",\"value\":\"YmFy\"}";

pub(super) const AT_2: &str =
    "{\"header\":{\"cluster_id\":\"1\",\"member_id\":\"1\",\"raft_term\":\"1\",\"revision\":\"2\"}}";

pub(super) const RANGE_FOO: &str = "{\"key\":\"Zm9v\"}";

pub(super) const FOO_AT_2: &str =
    "{\"count\":\"1\",\"header\":{\"cluster_id\":\"1\",\"member_id\":\"1\",\"raft_term\":\"1\",\"revision\":\"2\"},\"kvs\":[{\"create_revision\":\"2\",\"key\":\"Zm9v\",\"mod_revision\":\"2\",\"value\":\"YmFy\",\"version\":\"1\"}]}";

pub(super) const AT_1: &str =
    "{\"header\":{\"cluster_id\":\"1\",\"member_id\":\"1\",\"raft_term\":\"1\",\"revision\":\"1\"}}";

pub(super) const PUT_NO_KEY: &str = "{\"value\":\"YmFy\"}";

pub(super) const NO_KEY: &str =
    "{\"code\":3,\"error\":\"etcdserver: key is not provided\",\"message\":\"etcdserver: key is not provided\"}";

pub(super) const PUT_A_1: &str = "{\"key\":\"YQ==\",\"value\":\"MQ==\"}";

pub(super) const PUT_B_1: &str = "{\"key\":\"Yg==\",\"value\":\"MQ==\"}";

pub(super) const AT_3: &str =
    "{\"header\":{\"cluster_id\":\"1\",\"member_id\":\"1\",\"raft_term\":\"1\",\"revision\":\"3\"}}";

pub(super) const PUT_C_1: &str = "{\"key\":\"Yw==\",\"value\":\"MQ==\"}";

pub(super) const AT_4: &str =
    "{\"header\":{\"cluster_id\":\"1\",\"member_id\":\"1\",\"raft_term\":\"1\",\"revision\":\"4\"}}";

pub(super) const PUT_B_2: &str = "{\"key\":\"Yg==\",\"value\":\"Mg==\"}";

pub(super) const AT_5: &str =
    "{\"header\":{\"cluster_id\":\"1\",\"member_id\":\"1\",\"raft_term\":\"1\",\"revision\":\"5\"}}";

pub(super) const RANGE_ONE_OF_ALL: &str =
    "{\"key\":\"AA==\",\"range_end\":\"AA==\",\"limit\":\"1\"}";

pub(super) const ONE_OF_ALL: &str =
    "{\"count\":\"3\",\"header\":{\"cluster_id\":\"1\",\"member_id\":\"1\",\"raft_term\":\"1\",\"revision\":\"5\"},\"kvs\":[{\"create_revision\":\"2\",\"key\":\"YQ==\",\"mod_revision\":\"2\",\"value\":\"MQ==\",\"version\":\"1\"}],\"more\":true}";

pub(super) const RANGE_BY_VERSION: &str =
    "{\"key\":\"AA==\",\"range_end\":\"AA==\",\"sort_order\":\"DESCEND\",\"sort_target\":\"VERSION\",\"keys_only\":true}";

pub(super) const BY_VERSION: &str =
    "{\"count\":\"3\",\"header\":{\"cluster_id\":\"1\",\"member_id\":\"1\",\"raft_term\":\"1\",\"revision\":\"5\"},\"kvs\":[{\"create_revision\":\"3\",\"key\":\"Yg==\",\"mod_revision\":\"5\",\"version\":\"2\"},{\"create_revision\":\"2\",\"key\":\"YQ==\",\"mod_revision\":\"2\",\"version\":\"1\"},{\"create_revision\":\"4\",\"key\":\"Yw==\",\"mod_revision\":\"4\",\"version\":\"1\"}]}";

pub(super) const RANGE_OF_NOTHING: &str = "{\"key\":\"Yg==\",\"range_end\":\"YQ==\"}";

pub(super) const DELETE_A: &str = "{\"key\":\"YQ==\"}";

pub(super) const DELETED_AT_3: &str =
    "{\"deleted\":\"1\",\"header\":{\"cluster_id\":\"1\",\"member_id\":\"1\",\"raft_term\":\"1\",\"revision\":\"3\"}}";

pub(super) const PUT_A_2: &str = "{\"key\":\"YQ==\",\"value\":\"Mg==\"}";

pub(super) const RANGE_A_AT_2: &str = "{\"key\":\"YQ==\",\"revision\":\"2\"}";

pub(super) const A_AS_OF_2: &str =
    "{\"count\":\"1\",\"header\":{\"cluster_id\":\"1\",\"member_id\":\"1\",\"raft_term\":\"1\",\"revision\":\"4\"},\"kvs\":[{\"create_revision\":\"2\",\"key\":\"YQ==\",\"mod_revision\":\"2\",\"value\":\"MQ==\",\"version\":\"1\"}]}";

pub(super) const RANGE_A_AT_3: &str = "{\"key\":\"YQ==\",\"revision\":\"3\"}";

pub(super) const RANGE_A_AT_4: &str = "{\"key\":\"YQ==\",\"revision\":\"4\"}";

pub(super) const A_AS_OF_4: &str =
    "{\"count\":\"1\",\"header\":{\"cluster_id\":\"1\",\"member_id\":\"1\",\"raft_term\":\"1\",\"revision\":\"4\"},\"kvs\":[{\"create_revision\":\"4\",\"key\":\"YQ==\",\"mod_revision\":\"4\",\"value\":\"Mg==\",\"version\":\"1\"}]}";

pub(super) const RANGE_A_AT_5: &str = "{\"key\":\"YQ==\",\"revision\":\"5\"}";

pub(super) const IS_FUTURE: &str =
    "{\"code\":11,\"error\":\"etcdserver: mvcc: required revision is a future revision\",\"message\":\"etcdserver: mvcc: required revision is a future revision\"}";

pub(super) const COMPACT_4: &str = "{\"revision\":\"4\"}";

pub(super) const IS_COMPACTED: &str =
    "{\"code\":11,\"error\":\"etcdserver: mvcc: required revision has been compacted\",\"message\":\"etcdserver: mvcc: required revision has been compacted\"}";

pub(super) const WATCH_A_FROM_2: &str =
    "{\"create_request\":{\"key\":\"YQ==\",\"start_revision\":\"2\"}}";

pub(super) const CREATED_AT_2: &str =
    "{\"result\":{\"created\":true,\"header\":{\"cluster_id\":\"1\",\"member_id\":\"1\",\"raft_term\":\"1\",\"revision\":\"2\"}}}";

pub(super) const A_TOLD_AT_2: &str =
    "{\"result\":{\"events\":[{\"kv\":{\"create_revision\":\"2\",\"key\":\"YQ==\",\"mod_revision\":\"2\",\"value\":\"MQ==\",\"version\":\"1\"}}],\"header\":{\"cluster_id\":\"1\",\"member_id\":\"1\",\"raft_term\":\"1\",\"revision\":\"2\"}}}";

pub(super) const AT_6: &str =
    "{\"header\":{\"cluster_id\":\"1\",\"member_id\":\"1\",\"raft_term\":\"1\",\"revision\":\"6\"}}";

pub(super) const AT_7: &str =
    "{\"header\":{\"cluster_id\":\"1\",\"member_id\":\"1\",\"raft_term\":\"1\",\"revision\":\"7\"}}";

pub(super) const COMPACT_7: &str = "{\"revision\":\"7\"}";

pub(super) const AT_8: &str =
    "{\"header\":{\"cluster_id\":\"1\",\"member_id\":\"1\",\"raft_term\":\"1\",\"revision\":\"8\"}}";

pub(super) const A_TOLD_AT_8: &str =
    "{\"result\":{\"events\":[{\"kv\":{\"create_revision\":\"2\",\"key\":\"YQ==\",\"mod_revision\":\"8\",\"value\":\"Mg==\",\"version\":\"2\"}}],\"header\":{\"cluster_id\":\"1\",\"member_id\":\"1\",\"raft_term\":\"1\",\"revision\":\"8\"}}}";

pub(super) const COMPACT_3: &str = "{\"revision\":\"3\"}";

pub(super) const WATCH_A_FROM_3: &str =
    "{\"create_request\":{\"key\":\"YQ==\",\"start_revision\":\"3\",\"prev_kv\":true}}";

pub(super) const CREATED_AT_3: &str =
    "{\"result\":{\"created\":true,\"header\":{\"cluster_id\":\"1\",\"member_id\":\"1\",\"raft_term\":\"1\",\"revision\":\"3\"}}}";

pub(super) const DELETE_OF_A: &str =
    "{\"result\":{\"events\":[{\"kv\":{\"key\":\"YQ==\",\"mod_revision\":\"3\"},\"prev_kv\":{\"create_revision\":\"2\",\"key\":\"YQ==\",\"mod_revision\":\"2\",\"value\":\"MQ==\",\"version\":\"1\"},\"type\":\"DELETE\"}],\"header\":{\"cluster_id\":\"1\",\"member_id\":\"1\",\"raft_term\":\"1\",\"revision\":\"3\"}}}";

pub(super) const CANCELED_AT_3: &str =
    "{\"result\":{\"canceled\":true,\"compact_revision\":\"3\",\"header\":{\"cluster_id\":\"1\",\"member_id\":\"1\",\"raft_term\":\"1\",\"revision\":\"3\"}}}";

pub(super) const DELETE_B: &str = "{\"key\":\"Yg==\"}";

pub(super) const DELETED_AT_6: &str =
    "{\"deleted\":\"1\",\"header\":{\"cluster_id\":\"1\",\"member_id\":\"1\",\"raft_term\":\"1\",\"revision\":\"6\"}}";

pub(super) const AT_9: &str =
    "{\"header\":{\"cluster_id\":\"1\",\"member_id\":\"1\",\"raft_term\":\"1\",\"revision\":\"9\"}}";

pub(super) const COMPACT_9: &str = "{\"revision\":\"9\"}";

pub(super) const COMPACT_99: &str = "{\"revision\":\"99\"}";

pub(super) const GRANT_7: &str = "{\"TTL\":\"10\",\"ID\":\"7\"}";

pub(super) const GRANTED_7: &str =
    "{\"ID\":\"7\",\"TTL\":\"10\",\"header\":{\"cluster_id\":\"1\",\"member_id\":\"1\",\"raft_term\":\"1\",\"revision\":\"1\"}}";

pub(super) const PUT_A_1_LEASED: &str = "{\"key\":\"YQ==\",\"value\":\"MQ==\",\"lease\":\"7\"}";

pub(super) const PUT_B_1_LEASED: &str = "{\"key\":\"Yg==\",\"value\":\"MQ==\",\"lease\":\"7\"}";

pub(super) const PUT_C_1_LEASED: &str = "{\"key\":\"Yw==\",\"value\":\"MQ==\",\"lease\":\"7\"}";

pub(super) const TIME_TO_LIVE_7: &str = "{\"ID\":\"7\",\"keys\":true}";

pub(super) const LEFT_7: &str =
    "{\"ID\":\"7\",\"TTL\":\"10\",\"grantedTTL\":\"10\",\"header\":{\"cluster_id\":\"1\",\"member_id\":\"1\",\"raft_term\":\"1\",\"revision\":\"5\"},\"keys\":[\"YQ==\",\"Yw==\"]}";

pub(super) const KEEP_ALIVE_7: &str = "{\"ID\":\"7\"}";

pub(super) const NOT_RENEWED_7: &str =
    "{\"result\":{\"ID\":\"7\",\"header\":{\"cluster_id\":\"1\",\"member_id\":\"1\",\"raft_term\":\"1\",\"revision\":\"6\"}}}";

pub(super) const GONE_7: &str =
    "{\"ID\":\"7\",\"TTL\":\"-1\",\"header\":{\"cluster_id\":\"1\",\"member_id\":\"1\",\"raft_term\":\"1\",\"revision\":\"6\"}}";

pub(super) const NO_LEASE: &str =
    "{\"code\":5,\"error\":\"etcdserver: requested lease not found\",\"message\":\"etcdserver: requested lease not found\"}";
