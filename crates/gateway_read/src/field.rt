//! The names of the fields of requests.
ghost use Rattle.std.specs.Prelude.{◌≡◌};
ghost use Rattle.kv_model.specs.Requests as requests;
ghost use Rattle.gateway_read.specs.Fields.{snake_of, camel_of};

/// A field of a request, or of a message within one (the etcd documentation's API reference: the
/// fields of RangeRequest, PutRequest, DeleteRangeRequest, TxnRequest, Compare, RequestOp,
/// CompactionRequest, WatchRequest and the lease requests). Fields of one name in several messages
/// are one.
#[derive(Clone, Copy, Debug, PartialEq, Eq)]
pub enum Field {
    /// `key`
    Key,
    /// `range_end`
    RangeEnd,
    /// `limit`
    Limit,
    /// `revision`
    Revision,
    /// `sort_order`
    SortOrder,
    /// `sort_target`
    SortTarget,
    /// `serializable`
    Serializable,
    /// `keys_only`
    KeysOnly,
    /// `count_only`
    CountOnly,
    /// `min_mod_revision`
    MinModRevision,
    /// `max_mod_revision`
    MaxModRevision,
    /// `min_create_revision`
    MinCreateRevision,
    /// `max_create_revision`
    MaxCreateRevision,
    /// `value`
    Value,
    /// `lease`
    Lease,
    /// `prev_kv`
    PrevKv,
    /// `ignore_value`
    IgnoreValue,
    /// `ignore_lease`
    IgnoreLease,
    /// `compare`
    Compare,
    /// `success`
    Success,
    /// `failure`
    Failure,
    /// `physical`
    Physical,
    /// `create_request`
    CreateRequest,
    /// `start_revision`
    StartRevision,
    /// `filters`
    Filters,
    /// `watch_id`
    WatchId,
    /// `TTL`
    Ttl,
    /// `ID`
    Id,
    /// `keys`
    Keys,
    /// `result`
    Result,
    /// `target`
    Target,
    /// `version`
    Version,
    /// `create_revision`
    CreateRevision,
    /// `mod_revision`
    ModRevision,
    /// `request_range`
    RequestRange,
    /// `request_put`
    RequestPut,
    /// `request_delete_range`
    RequestDeleteRange,
    /// `request_txn`
    RequestTxn,
}

impl Field {
    /// The name as the etcd documentation spells it, as `range_end`. Refusals name a field so.
    #[tactic(auto, unfolding(crate::specs::Fields::snake_of))]
    pub fn snake(self) -> &'static str
        ensures { result.now ≡ snake_of self }
    {
        match self {
            Field::Key => "key",
            Field::RangeEnd => "range_end",
            Field::Limit => "limit",
            Field::Revision => "revision",
            Field::SortOrder => "sort_order",
            Field::SortTarget => "sort_target",
            Field::Serializable => "serializable",
            Field::KeysOnly => "keys_only",
            Field::CountOnly => "count_only",
            Field::MinModRevision => "min_mod_revision",
            Field::MaxModRevision => "max_mod_revision",
            Field::MinCreateRevision => "min_create_revision",
            Field::MaxCreateRevision => "max_create_revision",
            Field::Value => "value",
            Field::Lease => "lease",
            Field::PrevKv => "prev_kv",
            Field::IgnoreValue => "ignore_value",
            Field::IgnoreLease => "ignore_lease",
            Field::Compare => "compare",
            Field::Success => "success",
            Field::Failure => "failure",
            Field::Physical => "physical",
            Field::CreateRequest => "create_request",
            Field::StartRevision => "start_revision",
            Field::Filters => "filters",
            Field::WatchId => "watch_id",
            Field::Ttl => "TTL",
            Field::Id => "ID",
            Field::Keys => "keys",
            Field::Result => "result",
            Field::Target => "target",
            Field::Version => "version",
            Field::CreateRevision => "create_revision",
            Field::ModRevision => "mod_revision",
            Field::RequestRange => "request_range",
            Field::RequestPut => "request_put",
            Field::RequestDeleteRange => "request_delete_range",
            Field::RequestTxn => "request_txn",
        }
    }

    /// The name in camel case, as `rangeEnd` (protobuf's JSON mapping: lowerCamelCase). Some names
    /// are the same in both.
    pub(crate) fn camel(self) -> &'static str
        ensures spelling { result.now ≡ camel_of self }
        ensures camel { result.now ≡ requests.camel (snake_of self) }
    {
        self.spelled_in_camel_case()
    }

    #[tactic(auto, unfolding(crate::specs::Fields::camel_of))]
    fn spelled_in_camel_case(self) -> &'static str
        ensures { result.now ≡ camel_of self }
    {
        match self {
            Field::Key => "key",
            Field::RangeEnd => "rangeEnd",
            Field::Limit => "limit",
            Field::Revision => "revision",
            Field::SortOrder => "sortOrder",
            Field::SortTarget => "sortTarget",
            Field::Serializable => "serializable",
            Field::KeysOnly => "keysOnly",
            Field::CountOnly => "countOnly",
            Field::MinModRevision => "minModRevision",
            Field::MaxModRevision => "maxModRevision",
            Field::MinCreateRevision => "minCreateRevision",
            Field::MaxCreateRevision => "maxCreateRevision",
            Field::Value => "value",
            Field::Lease => "lease",
            Field::PrevKv => "prevKv",
            Field::IgnoreValue => "ignoreValue",
            Field::IgnoreLease => "ignoreLease",
            Field::Compare => "compare",
            Field::Success => "success",
            Field::Failure => "failure",
            Field::Physical => "physical",
            Field::CreateRequest => "createRequest",
            Field::StartRevision => "startRevision",
            Field::Filters => "filters",
            Field::WatchId => "watchId",
            Field::Ttl => "TTL",
            Field::Id => "ID",
            Field::Keys => "keys",
            Field::Result => "result",
            Field::Target => "target",
            Field::Version => "version",
            Field::CreateRevision => "createRevision",
            Field::ModRevision => "modRevision",
            Field::RequestRange => "requestRange",
            Field::RequestPut => "requestPut",
            Field::RequestDeleteRange => "requestDeleteRange",
            Field::RequestTxn => "requestTxn",
        }
    }
}
