//! When calls are refused: the texts of the first half of the rows of docs/REFUSALS.md.

pub(crate) const NO_SERVICE: &str = "\
    at the look: there is no service of this name, or none any more at the look after a failed \
    opening";

pub(crate) const UNREADABLE: &str = "\
    at the look, before the bytes are read: the description can't be opened or read \
    (`OpenFault`, `ReadFault`); never over a `Table`";

pub(crate) const CORRUPTED: &str = "\
    at the look: the storage is at fault, or the bytes are no description or one of another \
    hash; at the opening: no segment is there, or the sixth opening has failed too";

pub(crate) const OTHER_PATTERN: &str =
    "at the look, before the attributes: what is published under the hash is of another pattern";

pub(crate) const ATTRIBUTES: &str = "\
    at the attributes, before any setting: a required pair isn't there, or a required key has no \
    value";

pub(crate) const NO_TAG_OR_TICKET: &str = "\
    at the tag: it can't be made (`Fault`); at the opening: there is room, and no ticket is left \
    (`OutOfNumbers`); the tag is given back";

pub(crate) const DEADLINE: &str = "\
    at the eighth setting: `deadline` is marked and the service's has another length, or one of \
    the two has none; when the service was created isn't compared";

pub(crate) const NOTIFIER_CREATED_EVENT: &str = "\
    at the fifth setting: `notifier_created_event` is marked and the service's is another one, \
    or one of the two has none";

pub(crate) const NOTIFIER_DROPPED_EVENT: &str = "\
    at the sixth setting: `notifier_dropped_event` is marked and the service's is another one, \
    or one of the two has none";

pub(crate) const NOTIFIER_DEAD_EVENT: &str = "\
    at the seventh setting: `notifier_dead_event` is marked and the service's is another one, or \
    one of the two has none";

pub(crate) const LOCKED: &str = "\
    at the look: the service is locked and not yet published (`NotFinalized`): over a table at \
    once, over a log when its `creation_timeout` has passed";

pub(crate) const MAX_NOTIFIERS: &str =
    "at the first setting: `max_notifiers` is marked, and the service is for fewer";

pub(crate) const MAX_LISTENERS: &str =
    "at the second setting: `max_listeners` is marked, and the service is for fewer";

pub(crate) const EVENT_ID_MAX_VALUE: &str =
    "at the third setting: `event_id_max_value` is marked, and the service's is smaller";

pub(crate) const EVENT_MAX_NODES: &str = "\
    at the fourth setting: `max_nodes` is marked, and the service is for fewer, however many \
    have opened it";

pub(crate) const FULL: &str = "\
    at the opening, after all requirements: as many other nodes as the service is for have \
    opened it (`Full`); the tag is given back";

pub(crate) const MARKED: &str = "\
    at the opening, before room is asked: the last node has left, and what it left is still \
    there (`Marked`); the tag is given back";

pub(crate) const NO_MEMORY: &str = "\
    at the look, the tag or the opening: there was no memory for the bytes, their reading, the \
    tag or the registration";

pub(crate) const CREATE_CORRUPTED: &str = "\
    at the look: the storage is at fault, or the bytes are no description or one of another \
    hash; at the count: the node is registered though there is no service; at the segment: the \
    sixth making still finds a segment; at the publishing: the storage doesn't publish (`Other`)";

pub(crate) const CREATE_FAILS_OR_NO_TIME: &str = "\
    at the tag: it can't be made; at the clock: there is a deadline, asked or configured, and \
    `now` is a `ClockFault`; at the lock: it fails (`Other`), over a `Table` since no number is \
    left; at the segment: making or clearing fails (`Other`)";

pub(crate) const OTHERS_LOCK: &str = "\
    at the lock: somebody has locked the service since the look found none (`Creation`); the tag \
    is given back";

pub(crate) const EXISTS: &str = "\
    at the look: there is a service under the hash, also one of another pattern; at the lock: it \
    was published since the look found none, and the tag is given back";

pub(crate) const CREATE_FINDS_LOCK: &str = "\
    at the look: the service was locked and not yet published when the call looked \
    (`NotFinalized`)";

pub(crate) const CREATE_FORBIDDEN: &str = "\
    at the look: the description can't be opened or read; at the lock or the segment: the \
    storage refuses the lock, the making or the clearing; never over a `Table`";

pub(crate) const CREATE_NO_MEMORY: &str = "\
    at the look, the copies, the tag, the lock, the segment or the publishing: there was no \
    memory for reading what is there, the call's own copies, or an access";

pub(crate) const ROUND_NO_SERVICE: &str = "\
    never: where the look of an open finds none any more, the next round begins, and creates it \
    if it is still gone";

pub(crate) const ROUND_UNREADABLE: &str = "\
    at the look of a round or of its open: the description can't be opened or read (`OpenFault`, \
    `ReadFault`); never over a `Table`";

pub(crate) const ROUND_CORRUPTED: &str = "\
    at the look of a round alone: the storage is at fault, or the bytes are no description or \
    one of another hash; where an open is refused so, the next round begins";

pub(crate) const ROUND_OTHER_PATTERN: &str = "\
    at the look of a round or of its open, before the attributes: what is published under the \
    hash is of another pattern; nothing is created";

pub(crate) const ROUND_ATTRIBUTES: &str = "\
    at the attributes of an open, before any setting: the service that was found lacks a \
    required pair, or has no value for a required key";

pub(crate) const ROUND_LOCKED: &str = "\
    at the look of a round or of its open: the service is locked and not yet published \
    (`NotFinalized`), by another, or by an earlier round of the call whose removal was refused; \
    no round follows";

pub(crate) const ROUND_FULL: &str = "\
    at the opening, after all requirements: as many other nodes as the service is for have \
    opened it (`Full`); the tag is given back, and no further service is created";

pub(crate) const ROUND_MARKED: &str =
    "never: where the opening finds that the last node has left (`Marked`) the next round begins";

pub(crate) const ROUND_NO_MEMORY: &str = "\
    at the look of a round, or the look, the tag or the opening of its open: there was no memory \
    for the bytes, their reading, the tag or the registration; no round follows";

pub(crate) const ROUND_CREATE_CORRUPTED: &str = "\
    never: where a create is refused so, at the look, the count, the segment or the publishing, \
    the next round begins";

pub(crate) const ROUND_CREATE_FAILS_OR_NO_TIME: &str = "\
    after the look of a round found nothing, at the tag: it can't be made; at the clock: there \
    is a deadline, asked or configured, and `now` is a `ClockFault`; at the lock: it fails \
    (`Other`), over a `Table` since no number is left; at the segment: making or clearing fails \
    (`Other`)";

pub(crate) const ROUND_OTHERS_LOCK: &str =
    "never: where a create meets another's lock (`Creation`) the next round begins";

pub(crate) const ROUND_EXISTS: &str = "\
    never: where the look or the lock of a create meets a service that the look of the round \
    didn't find, the next round begins, and opens it if it is still there";

pub(crate) const ROUND_CREATE_FINDS_LOCK: &str = "\
    at the look of a create: that of the round found nothing, and this one a lock \
    (`NotFinalized`); no round follows";

pub(crate) const ROUND_CREATE_FORBIDDEN: &str = "\
    after the look of a round found nothing, at that of its create: the description can't be \
    opened or read; at the lock or the segment: the storage refuses the lock, the making or the \
    clearing; never over a `Table`";

pub(crate) const ROUND_CREATE_NO_MEMORY: &str = "\
    after the look of a round found nothing, at the look, the copies, the tag, the lock, the \
    segment or the publishing of its create: there was no memory for reading what is there, the \
    call's own copies, or an access; no round follows";

pub(crate) const SIX_ROUNDS: &str = "\
    six rounds in a row a create or an open was refused by what leads to another: others come \
    and go, or what was left stays (a marked segment, a missing one, a description that can't be \
    published)";

pub(crate) const TYPES: &str = "\
    at the look, after the pattern and before the attributes: the header differs, or user header \
    or payload differ in variant, name or size, or are less aligned in the service than in the \
    builder";

pub(crate) const OTHER_PATTERN_BEFORE_TYPES: &str =
    "at the look, before the types: what is published under the hash is of another pattern";

pub(crate) const ATTRIBUTES_AFTER_TYPES: &str = "\
    at the attributes, after the types and before any setting: a required pair isn't there, or a \
    required key has no value";

pub(crate) const SUBSCRIBER_MAX_BUFFER_SIZE: &str =
    "at the third setting: `subscriber_max_buffer_size` is marked, and the service's is smaller";

pub(crate) const HISTORY_SIZE: &str =
    "at the fourth setting: `history_size` is marked, and the service's is smaller";

pub(crate) const SUBSCRIBER_MAX_BORROWED_SAMPLES: &str = "\
    at the fifth setting: `subscriber_max_borrowed_samples` is marked, and the service's is \
    smaller";

pub(crate) const MAX_PUBLISHERS: &str =
    "at the first setting: `max_publishers` is marked, and the service is for fewer";

pub(crate) const MAX_SUBSCRIBERS: &str =
    "at the second setting: `max_subscribers` is marked, and the service is for fewer";

pub(crate) const PUBLISH_SUBSCRIBE_MAX_NODES: &str = "\
    at the seventh setting, the last one: `max_nodes` is marked, and the service is for fewer, \
    however many have opened it";

pub(crate) const ENABLE_SAFE_OVERFLOW: &str =
    "at the sixth setting: `enable_safe_overflow` is marked, and the service's is the other one";

pub(crate) const NO_MEMORY_OR_TYPES: &str = "\
    at the types, before any access: there was no memory for the types; at the look, the tag or \
    the opening: none for the bytes, their reading, the tag or the registration";

pub(crate) const HISTORY: &str = "\
    at the history, before any access, so also where there is a service: `enable_safe_overflow` \
    is false, and `subscriber_max_buffer_size`, of which zero is one, is less than \
    `history_size`; an equal one is enough";

pub(crate) const EXISTS_OF_ANY_TYPES: &str = "\
    at the look: there is a service under the hash, also one of another pattern or of other \
    types; at the lock: it was published since the look found none, and the tag is given back";

pub(crate) const CREATE_FAILS: &str = "\
    at the tag: it can't be made; at the lock: it fails (`Other`), over a `Table` since no \
    number is left; at the segment: making or clearing fails (`Other`)";

pub(crate) const CREATE_NO_MEMORY_BEFORE_HISTORY: &str = "\
    at the types, before the history is asked: there was no memory for the types; at the look, \
    the copies, the tag, the lock, the segment or the publishing: none for reading what is \
    there, the call's own copies, or an access";

pub(crate) const ROUND_TYPES: &str = "\
    at the look of a round or of its open, after the pattern and before the attributes: the \
    header differs, or user header or payload differ in variant, name or size, or are less \
    aligned in the service than in the builder";

pub(crate) const ROUND_OTHER_PATTERN_BEFORE_TYPES: &str = "\
    at the look of a round or of its open, before the types: what is published under the hash is \
    of another pattern; nothing is created";

pub(crate) const ROUND_ATTRIBUTES_AFTER_TYPES: &str = "\
    at the attributes of an open, after the types and before any setting: the service that was \
    found lacks a required pair, or has no value for a required key";

pub(crate) const ROUND_NO_MEMORY_OR_TYPES: &str = "\
    at the types, before any access: there was no memory for the types; at the look of a round, \
    or the look, the tag or the opening of its open: none for the bytes, their reading, the tag \
    or the registration; no round follows";

pub(crate) const ROUND_HISTORY: &str = "\
    at the history, only where the look of a round found nothing: `enable_safe_overflow` is \
    false, and `subscriber_max_buffer_size`, of which zero is one, is less than `history_size`; \
    an equal one is enough";

pub(crate) const ROUND_CREATE_FAILS: &str = "\
    after the look of a round found nothing, at the tag: it can't be made; at the lock: it fails \
    (`Other`), over a `Table` since no number is left; at the segment: making or clearing fails \
    (`Other`)";

pub(crate) const ROUND_CREATE_NO_MEMORY_BUT_TYPES: &str = "\
    after the look of a round found nothing, at the look, the copies, the tag, the lock, the \
    segment or the publishing of its create: there was no memory for reading what is there, the \
    call's own copies, or an access; that for the types is an open error";

pub(crate) const MAX_LOANED_REQUESTS: &str =
    "at the fifth setting: `max_loaned_requests` is marked, and the service's is smaller";

pub(crate) const MAX_ACTIVE_REQUESTS_PER_CLIENT: &str = "\
    at the fourth setting, the first number: `max_active_requests_per_client` is marked, and the \
    service's is smaller";

pub(crate) const MAX_RESPONSE_BUFFER_SIZE: &str =
    "at the seventh setting: `max_response_buffer_size` is marked, and the service's is smaller";

pub(crate) const MAX_SERVERS: &str =
    "at the eighth setting: `max_servers` is marked, and the service is for fewer";

pub(crate) const MAX_CLIENTS: &str =
    "at the ninth setting: `max_clients` is marked, and the service is for fewer";

pub(crate) const REQUEST_RESPONSE_MAX_NODES: &str = "\
    at the tenth setting, the last one: `max_nodes` is marked, and the service is for fewer, \
    however many have opened it";

pub(crate) const MAX_BORROWED_RESPONSES_PER_PENDING_RESPONSE: &str = "\
    at the sixth setting: `max_borrowed_responses_per_pending_response` is marked, and the \
    service's is smaller";

pub(crate) const REQUEST_TYPE: &str = "\
    at the look, after the pattern and before the response: the request's header differs, or its \
    user header or payload differ in variant, name or size, or are less aligned in the service \
    than in the builder";

pub(crate) const RESPONSE_TYPE: &str = "\
    at the look, after the request and before the attributes: the same of the response; the \
    request is compatible";

pub(crate) const ENABLE_SAFE_OVERFLOW_FOR_REQUESTS: &str = "\
    at the first setting, before all other settings: `enable_safe_overflow_for_requests` is \
    marked, and the service's is the other one";

pub(crate) const ENABLE_SAFE_OVERFLOW_FOR_RESPONSES: &str = "\
    at the second setting: `enable_safe_overflow_for_responses` is marked, and the service's is \
    the other one";

pub(crate) const ENABLE_FIRE_AND_FORGET_REQUESTS: &str = "\
    at the third setting: `enable_fire_and_forget_requests` is marked, and the service's is the \
    other one";

pub(crate) const EXISTS_OF_ANY_REQUEST_OR_RESPONSE: &str = "\
    at the look: there is a service under the hash, also one of another pattern or of another \
    request or response; at the lock: it was published since the look found none, and the tag is \
    given back";

pub(crate) const CREATE_NO_MEMORY_OR_TYPES: &str = "\
    at the types, before any access: there was no memory for the types; at the look, the copies, \
    the tag, the lock, the segment or the publishing: none for reading what is there, the call's \
    own copies, or an access";

pub(crate) const ROUND_REQUEST_TYPE: &str = "\
    at the look of a round or of its open, after the pattern and before the response: the \
    request's header differs, or its user header or payload differ in variant, name or size, or \
    are less aligned in the service than in the builder";

pub(crate) const ROUND_RESPONSE_TYPE: &str = "\
    at the look of a round or of its open, after the request and before the attributes: the same \
    of the response; the request is compatible";
