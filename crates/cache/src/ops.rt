// What the steps ask of a version operation and of a disk operation: its kind, by name, and what it carries.
ghost use Rattle.std.specs.Prelude.{◌≡◌};
ghost use Rattle.blockcache.specs.Ops.{vop_kind, vop_loc, vop_no_op, dop_kind, dop_id, dop_loc, dop_brought, is_idle_d};

use blockcache::VersionOp;
use blockdisk::{Brought, DiskOp};
use disklayout::Location;

const NOWHERE: Location = Location { addr: 0, len: 0 };

// The kinds of version operation, by the definitions' numbers: the gate's table compares a kind in each of its twenty rows, where a pattern
// for each kind would take a function of its own.
pub(crate) const INTERNAL: u64 = 1;

pub(crate) const JOURNAL_INTERNAL: u64 = 2;

pub(crate) const SEND_PERSISTENT_LOC: u64 = 3;

pub(crate) const SEND_FROZEN_LOC: u64 = 4;

pub(crate) const ADVANCE: u64 = 5;

pub(crate) const FREEZE: u64 = 6;

pub(crate) const CLEAN_UP: u64 = 7;

pub(crate) const PUSH_SYNC: u64 = 8;

pub(crate) const POP_SYNC: u64 = 9;

pub(crate) const CRASH: u64 = 10;

// The kinds of disk operation.
pub(crate) const NO_DOP: u64 = 0;

pub(crate) const TABLE_READ_REQ: u64 = 1;

pub(crate) const NODE_READ_REQ: u64 = 2;

pub(crate) const TABLE_WRITE_REQ: u64 = 3;

pub(crate) const NODE_WRITE_REQ: u64 = 4;

pub(crate) const TABLE_READ_RESP: u64 = 5;

pub(crate) const NODE_READ_RESP: u64 = 6;

pub(crate) const TABLE_WRITE_RESP: u64 = 7;

pub(crate) const NODE_WRITE_RESP: u64 = 8;

pub(crate) fn vop_kind(v: VersionOp) -> u64
    ensures { result ≡ vop_kind v }
{
    match v {
        VersionOp::StatesInternalOp => INTERNAL,
        VersionOp::JournalInternalOp => JOURNAL_INTERNAL,
        VersionOp::SendPersistentLocOp(_) => SEND_PERSISTENT_LOC,
        VersionOp::SendFrozenLocOp(_) => SEND_FROZEN_LOC,
        VersionOp::AdvanceOp(_) => ADVANCE,
        VersionOp::FreezeOp => FREEZE,
        VersionOp::CleanUpOp => CLEAN_UP,
        VersionOp::PushSyncOp => PUSH_SYNC,
        VersionOp::PopSyncOp => POP_SYNC,
        VersionOp::CrashOp => CRASH,
    }
}

// The location that a Send operation carries; zeros with any other.
pub fn vop_loc(v: VersionOp) -> Location
    ensures { result ≡ vop_loc v }
{
    match v {
        VersionOp::SendPersistentLocOp(loc) | VersionOp::SendFrozenLocOp(loc) => loc,
        _ => NOWHERE,
    }
}

// Whether it is an AdvanceOp whose uiop is NoOp.
pub(crate) fn vop_no_op(v: VersionOp) -> bool
    ensures { result ≡ vop_no_op v }
{
    matches!(v, VersionOp::AdvanceOp(true))
}

pub(crate) fn dop_kind(op: DiskOp) -> u64
    ensures { result ≡ dop_kind op }
{
    match op {
        DiskOp::ReqReadIndirectionTableOp(_, _) => TABLE_READ_REQ,
        DiskOp::ReqReadNodeOp(_, _) => NODE_READ_REQ,
        DiskOp::ReqWriteIndirectionTableOp(_, _) => TABLE_WRITE_REQ,
        DiskOp::ReqWriteNodeOp(_, _) => NODE_WRITE_REQ,
        DiskOp::RespReadIndirectionTableOp(_, _) => TABLE_READ_RESP,
        DiskOp::RespReadNodeOp(_, _) => NODE_READ_RESP,
        DiskOp::RespWriteIndirectionTableOp(_) => TABLE_WRITE_RESP,
        DiskOp::RespWriteNodeOp(_) => NODE_WRITE_RESP,
        DiskOp::NoDiskOp => NO_DOP,
    }
}

pub(crate) fn dop_id(op: DiskOp) -> u64
    ensures { result ≡ dop_id op }
{
    match op {
        DiskOp::ReqReadIndirectionTableOp(id, _)
        | DiskOp::ReqReadNodeOp(id, _)
        | DiskOp::ReqWriteIndirectionTableOp(id, _)
        | DiskOp::ReqWriteNodeOp(id, _)
        | DiskOp::RespReadIndirectionTableOp(id, _)
        | DiskOp::RespReadNodeOp(id, _)
        | DiskOp::RespWriteIndirectionTableOp(id)
        | DiskOp::RespWriteNodeOp(id) => id,
        DiskOp::NoDiskOp => 0,
    }
}

// A request's location; zeros with an answer.
pub(crate) fn dop_loc(op: DiskOp) -> Location
    ensures { result ≡ dop_loc op }
{
    match op {
        DiskOp::ReqReadIndirectionTableOp(_, loc)
        | DiskOp::ReqReadNodeOp(_, loc)
        | DiskOp::ReqWriteIndirectionTableOp(_, loc)
        | DiskOp::ReqWriteNodeOp(_, loc) => loc,
        _ => NOWHERE,
    }
}

// What a read answer brings; nothing with any other operation.
pub(crate) fn dop_brought(op: DiskOp) -> Brought
    ensures { result ≡ dop_brought op }
{
    match op {
        DiskOp::RespReadIndirectionTableOp(_, brought) | DiskOp::RespReadNodeOp(_, brought) => {
            brought
        }
        _ => Brought::Nothing,
    }
}

// What NoOp takes: no disk operation, or an answer.
pub(crate) fn idle_disk(op: DiskOp) -> bool
    ensures { result ≡ is_idle_d op }
{
    matches!(
        op,
        DiskOp::NoDiskOp
            | DiskOp::RespReadIndirectionTableOp(_, _)
            | DiskOp::RespReadNodeOp(_, _)
            | DiskOp::RespWriteIndirectionTableOp(_)
            | DiskOp::RespWriteNodeOp(_)
    )
}
