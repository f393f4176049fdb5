//! What can be done about a refusal: the texts of the second half of the rows of docs/REFUSALS.md.

pub(crate) const CREATE_IT: &str = "\
    create it, or again once somebody has; the pattern is hashed with the name, so another \
    pattern's service of this name isn't found";

pub(crate) const GRANT_READING: &str =
    "give the node the right to read the storage; again helps only where the fault passes";

pub(crate) const RETRY_OR_REMOVE: &str = "\
    again, since the last node may be closing or others replace the service; what lasts was \
    damaged or left, and has to be removed from the storage";

pub(crate) const TAKE_ANOTHER_NAME: &str = "\
    again doesn't help: the hasher leaves the pattern's prefix out, or two names share a hash, \
    or somebody published under a foreign one; take another name";

pub(crate) const REQUIRE_LESS: &str = "\
    require less; `verify_requirements` on the `attributes` of a factory from `open` names the \
    first key that is lacking";

pub(crate) const RETRY_OR_NEW_TABLE: &str = "\
    again where the storage's fault passes; a `Table` whose counter is at its end gives no \
    tickets any more, so take a new one";

pub(crate) const MATCH_DEADLINE: &str = "\
    ask for the service's deadline, `disable_deadline` where it has none, or leave the setting \
    out";

pub(crate) const MATCH_CREATED_EVENT: &str = "\
    ask for the service's event, `disable_notifier_created_event` where it has none, or leave \
    the setting out";

pub(crate) const MATCH_DROPPED_EVENT: &str = "\
    ask for the service's event, `disable_notifier_dropped_event` where it has none, or leave \
    the setting out";

pub(crate) const MATCH_DEAD_EVENT: &str = "\
    ask for the service's event, `disable_notifier_dead_event` where it has none, or leave the \
    setting out";

pub(crate) const RETRY_AFTER_LOCK: &str =
    "again a little later; what lasts is a lock that was left";

pub(crate) const ASK_FOR_AS_MANY: &str =
    "ask for at most as many, or have the service created for more";

pub(crate) const ASK_FOR_AS_MUCH: &str =
    "ask for at most that value, or have the service created with a greater one";

pub(crate) const WAIT_FOR_ROOM: &str = "\
    again once one of them has closed its last factory; a factory that was abandoned keeps its \
    node's place";

pub(crate) const WAIT_AND_CREATE: &str = "\
    again until the answer is `DoesNotExist`, and then create; what lasts is what that node \
    couldn't remove";

pub(crate) const FREE_MEMORY: &str = "make memory free, and then again";

pub(crate) const RETRY_OR_CLEAR: &str =
    "again where the storage's fault passes; what lasts has to be removed from the storage";

pub(crate) const GIVE_TIME: &str = "\
    at the clock give a time or `disable_deadline`; with a `Table` whose counter is at its end \
    take a new one; else again where the fault passes";

pub(crate) const OPEN_LATER: &str = "open it a little later, once it is published";

pub(crate) const OPEN_IT: &str = "open it, or take another name; what is there wasn't changed";

pub(crate) const OPEN_AFTER_LOCK: &str =
    "open it a little later; what lasts is a lock that was left";

pub(crate) const GRANT_WRITING: &str =
    "give the node the right to read and write the storage; what was made is given back";

pub(crate) const FREE_MEMORY_FOR_CREATE: &str =
    "make memory free, and then again; what was made is given back";

pub(crate) const NOTHING_AS_IN_FLUX: &str =
    "nothing: no call answers it; a service that comes and goes is told as `SystemInFlux`";

pub(crate) const DEFINE_KEYS: &str = "\
    require less; a service that this call creates has the pairs and not the keys, so an open \
    that requires the keys is refused: define them with `create_with_attributes`";

pub(crate) const MATCH_DEADLINE_OR_DEFAULT: &str = "\
    ask for the service's deadline, `disable_deadline` where it has none, or leave the setting \
    out: a create then takes the configured one";

pub(crate) const MATCH_CREATED_EVENT_OR_DEFAULT: &str = "\
    ask for the service's event, `disable_notifier_created_event` where it has none, or leave \
    the setting out: a create then takes the configured one";

pub(crate) const MATCH_DROPPED_EVENT_OR_DEFAULT: &str = "\
    ask for the service's event, `disable_notifier_dropped_event` where it has none, or leave \
    the setting out: a create then takes the configured one";

pub(crate) const MATCH_DEAD_EVENT_OR_DEFAULT: &str = "\
    ask for the service's event, `disable_notifier_dead_event` where it has none, or leave the \
    setting out: a create then takes the configured one";

pub(crate) const ASK_FOR_AS_MANY_OR_DEFAULT: &str =
    "ask for at most as many, or leave the setting out: a create then takes the configured one";

pub(crate) const ASK_FOR_AS_MUCH_OR_DEFAULT: &str =
    "ask for at most that value, or leave the setting out: a create then takes the configured one";

pub(crate) const NOTHING_UNLESS_LEFT: &str =
    "nothing: no call answers it; where nobody removes what was left it is told as `SystemInFlux`";

pub(crate) const NOTHING_AS_NEXT_LOOK_TELLS: &str = "\
    nothing: no call answers it; what stays so is told by the look of the next round, or as \
    `SystemInFlux`";

pub(crate) const NOTHING_AS_LOCKED: &str = "\
    nothing: no call answers it; a lock that stays is told by the look of the next round, as the \
    open error `HangsInCreation`";

pub(crate) const NOTHING_AS_ROUND_OPENS: &str = "\
    nothing: no call answers it; a service that doesn't fit is told by that round, as an open \
    error";

pub(crate) const NAME_THE_CAUSE: &str =
    "again, in case others were quicker; where it lasts `open` and `create` name the cause";

pub(crate) const MATCH_TYPES: &str = "\
    build with the service's types, and ask for no greater `payload_alignment`; settings and \
    attributes can't help";

pub(crate) const MATCH: &str = "ask for the service's, or leave the setting out";

pub(crate) const MAKE_ROOM_FOR_HISTORY: &str =
    "a greater buffer, a smaller history, or safe overflow; configured defaults count too";

pub(crate) const OPEN_OR_ANOTHER_NAME: &str =
    "open it, which names what doesn't fit, or take another name; what is there wasn't changed";

pub(crate) const NEW_TABLE_OR_RETRY: &str = "\
    with a `Table` whose counter is at its end take a new one; else again where the storage's \
    fault passes";

pub(crate) const MATCH_OR_DEFAULT: &str =
    "ask for the service's, or leave the setting out: a create then takes the configured one";

pub(crate) const MAKE_ROOM_OR_OPEN: &str = "\
    a greater buffer, a smaller history, or safe overflow; while a service stands that fits, the \
    same call opens it";

pub(crate) const MATCH_REQUEST: &str = "\
    build with the service's request, and ask for no greater `request_payload_alignment`; \
    settings and attributes can't help";

pub(crate) const MATCH_RESPONSE: &str = "\
    build with the service's response, and ask for no greater `response_payload_alignment`; \
    settings and attributes can't help";
