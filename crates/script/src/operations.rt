// The operations, by the names of upstream's constructors.
ghost use Rattle.std.specs.Prelude.{◌≡◌};
ghost use Rattle.script.specs.Operations.{uiop_of, bare_version_of, version_of, answer_of, disk_of, uiop_word, version_word, disk_word};

use blockcache::VersionOp;
use blockdisk::{Brought, DiskOp};
use disklayout::Location;
use words::text::{after, same, word};

// Whether an AdvanceOp's uiop is NoOp.
#[tactic(auto, unfolding(crate::specs::Operations::uiop_of))]
fn uiop_of(w: &[u8]) -> Option<bool>
    ensures { result ≡ uiop_of w.now }
{
    if same(w, b"NoOp") {
        return Some(true);
    }
    if same(w, b"Op") {
        return Some(false);
    }
    None
}

// The version operation of this name, with the location that the two Send operations carry and AdvanceOp's uiop.
#[tactic(auto, unfolding(crate::specs::Operations::version_of))]
fn version_of(w: &[u8], loc: Location, noop: bool) -> Option<VersionOp>
    ensures { result ≡ version_of w.now loc noop }
{
    if same(w, b"SendPersistentLocOp") {
        return Some(VersionOp::SendPersistentLocOp(loc));
    }
    if same(w, b"SendFrozenLocOp") {
        return Some(VersionOp::SendFrozenLocOp(loc));
    }
    if same(w, b"AdvanceOp") {
        return Some(VersionOp::AdvanceOp(noop));
    }
    bare_version_of(w)
}

// The same of those that carry nothing.
#[tactic(auto, unfolding(crate::specs::Operations::bare_version_of))]
fn bare_version_of(w: &[u8]) -> Option<VersionOp>
    ensures { result ≡ bare_version_of w.now }
{
    if same(w, b"StatesInternalOp") {
        return Some(VersionOp::StatesInternalOp);
    }
    if same(w, b"JournalInternalOp") {
        return Some(VersionOp::JournalInternalOp);
    }
    if same(w, b"FreezeOp") {
        return Some(VersionOp::FreezeOp);
    }
    if same(w, b"CleanUpOp") {
        return Some(VersionOp::CleanUpOp);
    }
    if same(w, b"PushSyncOp") {
        return Some(VersionOp::PushSyncOp);
    }
    if same(w, b"PopSyncOp") {
        return Some(VersionOp::PopSyncOp);
    }
    if same(w, b"CrashOp") {
        return Some(VersionOp::CrashOp);
    }
    None
}

// The disk operation of this name, with its id and a request's location.
#[tactic(auto, unfolding(crate::specs::Operations::disk_of))]
fn disk_of(w: &[u8], id: u64, loc: Location) -> Option<DiskOp>
    ensures { result ≡ disk_of w.now id loc }
{
    if same(w, b"ReqReadIndirectionTableOp") {
        return Some(DiskOp::ReqReadIndirectionTableOp(id, loc));
    }
    if same(w, b"ReqReadNodeOp") {
        return Some(DiskOp::ReqReadNodeOp(id, loc));
    }
    if same(w, b"ReqWriteIndirectionTableOp") {
        return Some(DiskOp::ReqWriteIndirectionTableOp(id, loc));
    }
    if same(w, b"ReqWriteNodeOp") {
        return Some(DiskOp::ReqWriteNodeOp(id, loc));
    }
    answer_of(w, id)
}

// The same of the answers, and of none. What a read answer brings is known when the call is made: until then it brings nothing.
#[tactic(auto, unfolding(crate::specs::Operations::answer_of))]
fn answer_of(w: &[u8], id: u64) -> Option<DiskOp>
    ensures { result ≡ answer_of w.now id }
{
    if same(w, b"RespReadIndirectionTableOp") {
        return Some(DiskOp::RespReadIndirectionTableOp(id, Brought::Nothing));
    }
    if same(w, b"RespReadNodeOp") {
        return Some(DiskOp::RespReadNodeOp(id, Brought::Nothing));
    }
    if same(w, b"RespWriteIndirectionTableOp") {
        return Some(DiskOp::RespWriteIndirectionTableOp(id));
    }
    if same(w, b"RespWriteNodeOp") {
        return Some(DiskOp::RespWriteNodeOp(id));
    }
    if same(w, b"NoDiskOp") {
        return Some(DiskOp::NoDiskOp);
    }
    None
}

// The three words of a line that say these things, or what holds where a line has none.
#[tactic(auto, unfolding(crate::specs::Operations::uiop_word))]
pub fn uiop_word(rest: &[u8]) -> Option<bool>
    ensures { result ≡ uiop_word rest.now }
{
    let w = word(rest, b"uiop=");
    if w.is_empty() {
        return Some(false);
    }
    uiop_of(after(w, 5))
}

#[tactic(auto, unfolding(crate::specs::Operations::version_word))]
pub fn version_word(rest: &[u8], loc: Location, noop: bool) -> Option<VersionOp>
    ensures { result ≡ version_word rest.now loc noop }
{
    let w = word(rest, b"v=");
    if w.is_empty() {
        return Some(VersionOp::StatesInternalOp);
    }
    version_of(after(w, 2), loc, noop)
}

#[tactic(auto, unfolding(crate::specs::Operations::disk_word))]
pub fn disk_word(rest: &[u8], id: u64, loc: Location) -> Option<DiskOp>
    ensures { result ≡ disk_word rest.now id loc }
{
    let w = word(rest, b"d=");
    if w.is_empty() {
        return Some(DiskOp::NoDiskOp);
    }
    disk_of(after(w, 2), id, loc)
}
