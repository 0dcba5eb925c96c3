// Upstream's transitions of the disk: four requests, four answers, no operation. The entry judges the written form once, before all.
// A transition changes the disk in place, or tells why it is refused.
ghost use Rattle.std.specs.Prelude.{◌&&◌, not, ◌≡◌};
ghost use Rattle.sectortype.specs.Form.{zero_node, empty_table};
ghost use Rattle.blockdisk.specs.Ops.{request_of, request_outcome, answer_outcome, refusal_number, moved_outcome, something_in, op_outcome};
ghost use Rattle.blockdisk.specs.Ops.{disk_step};

use crate::Disk;
use crate::form::{disk_ok, node_allowed, queues_ok, records_ok, table_allowed};
use crate::read::{node_at, table_at, with_node, with_table};
use blockdisk::{Brought, DiskCall, DiskOp, DiskOutcome, DiskRefusal, Record};
use disklayout::Location;
use queue::{Request, Requests};
use sectortype::{Node, Table};

fn request(id: u64, loc: Location) -> Request
    ensures { result ≡ request_of id loc }
{
    Request {
        id,
        reference: 0,
        loc,
    }
}

// A request: 15 if its id is in the queue, 16 if its place is not allowed, 18 if the queue holds 16.
fn ask(q: Requests, id: u64, loc: Location, allowed: bool) -> Result<Requests, DiskRefusal>
    ensures { result ≡ request_outcome q id loc allowed }
{
    if queue::has(q, id) {
        return Err(DiskRefusal::Id);
    }
    if !allowed {
        return Err(DiskRefusal::Place);
    }
    if 16 <= q.count {
        return Err(DiskRefusal::Full);
    }
    Ok(queue::insert(q, request(id, loc)))
}

// An answer: 15 if its id is not in the queue, 17 if it brings something else than is stored.
fn take(q: Requests, id: u64, wrong: bool) -> Result<Requests, DiskRefusal>
    ensures { result ≡ answer_outcome q id wrong }
{
    if !queue::has(q, id) {
        return Err(DiskRefusal::Id);
    }
    if wrong {
        return Err(DiskRefusal::Brought);
    }
    Ok(queue::remove(q, id))
}

fn number(refusal: DiskRefusal) -> u64
    ensures { result ≡ refusal_number refusal }
{
    match refusal {
        DiskRefusal::Id => 15,
        DiskRefusal::Place => 16,
        DiskRefusal::Brought => 17,
        DiskRefusal::Full => 18,
    }
}

// A read answer that brings nothing is never wrong.
fn brings(b: Brought) -> bool
    ensures { result ≡ something_in b }
{
    let Brought::Something = b else {
        return false;
    };
    true
}

// Whether a read answer brings something else than x, the record at exactly the place asked for; it is told whether what the two hold is
// the same.
fn not_stored<T>(x: &Record<T>, b: Brought, same: bool) -> bool
    ensures { result ≡ (something_in b && not (x.now.present && same)) }
{
    brings(b) & !(x.present & same)
}

impl Disk {
    fn recv_read_indirection_table(&mut self, id: u64, loc: Location) -> Result<(), DiskRefusal>
        ensures { moved_outcome result self.new.state self.old.state ≡ op_outcome self.old.device self.old.state (DiskOp.ReqReadIndirectionTableOp id loc) zero_node empty_table }
    {
        let allowed = table_allowed(self.device, loc);
        self.state.queues.tablereads = ask(self.state.queues.tablereads, id, loc, allowed)?;
        Ok(())
    }

    fn recv_read_node(&mut self, id: u64, loc: Location) -> Result<(), DiskRefusal>
        ensures { moved_outcome result self.new.state self.old.state ≡ op_outcome self.old.device self.old.state (DiskOp.ReqReadNodeOp id loc) zero_node empty_table }
    {
        let allowed = node_allowed(self.device, loc);
        self.state.queues.nodereads = ask(self.state.queues.nodereads, id, loc, allowed)?;
        Ok(())
    }

    // The write takes effect at once: it replaces its area's record and nothing else.
    fn recv_write_indirection_table(
        &mut self,
        id: u64,
        loc: Location,
        table: Table,
    ) -> Result<(), DiskRefusal>
        ensures { moved_outcome result self.new.state self.old.state ≡ op_outcome self.old.device self.old.state (DiskOp.ReqWriteIndirectionTableOp id loc) zero_node table }
    {
        let allowed = table_allowed(self.device, loc);
        self.state.queues.tablewrites = ask(self.state.queues.tablewrites, id, loc, allowed)?;
        self.state.records = with_table(self.device, self.state.records, loc, table);
        Ok(())
    }

    // The write takes effect at once: it replaces its block's record and nothing else.
    fn recv_write_node(&mut self, id: u64, loc: Location, node: Node) -> Result<(), DiskRefusal>
        ensures { moved_outcome result self.new.state self.old.state ≡ op_outcome self.old.device self.old.state (DiskOp.ReqWriteNodeOp id loc) node empty_table }
    {
        let allowed = node_allowed(self.device, loc);
        self.state.queues.nodewrites = ask(self.state.queues.nodewrites, id, loc, allowed)?;
        self.state.records = with_node(self.device, self.state.records, loc, node);
        Ok(())
    }

    fn ack_read_indirection_table(
        &mut self,
        id: u64,
        b: Brought,
        table: Table,
    ) -> Result<(), DiskRefusal>
        ensures { moved_outcome result self.new.state self.old.state ≡ op_outcome self.old.device self.old.state (DiskOp.RespReadIndirectionTableOp id b) zero_node table }
    {
        let asked = queue::entry(self.state.queues.tablereads, id);
        let stored = table_at(self.device, self.state.records, asked.loc);
        let wrong = not_stored(&stored, b, sector::same_table(stored.held, table));
        self.state.queues.tablereads = take(self.state.queues.tablereads, id, wrong)?;
        Ok(())
    }

    fn ack_read_node(&mut self, id: u64, b: Brought, node: Node) -> Result<(), DiskRefusal>
        ensures { moved_outcome result self.new.state self.old.state ≡ op_outcome self.old.device self.old.state (DiskOp.RespReadNodeOp id b) node empty_table }
    {
        let asked = queue::entry(self.state.queues.nodereads, id);
        let stored = node_at(self.device, self.state.records, asked.loc);
        let wrong = not_stored(&stored, b, sector::same_node(stored.held, node));
        self.state.queues.nodereads = take(self.state.queues.nodereads, id, wrong)?;
        Ok(())
    }

    fn ack_write_indirection_table(&mut self, id: u64) -> Result<(), DiskRefusal>
        ensures { moved_outcome result self.new.state self.old.state ≡ op_outcome self.old.device self.old.state (DiskOp.RespWriteIndirectionTableOp id) zero_node empty_table }
    {
        self.state.queues.tablewrites = take(self.state.queues.tablewrites, id, false)?;
        Ok(())
    }

    fn ack_write_node(&mut self, id: u64) -> Result<(), DiskRefusal>
        ensures { moved_outcome result self.new.state self.old.state ≡ op_outcome self.old.device self.old.state (DiskOp.RespWriteNodeOp id) zero_node empty_table }
    {
        self.state.queues.nodewrites = take(self.state.queues.nodewrites, id, false)?;
        Ok(())
    }

    // The operation's own transition, in place: a function that took the whole disk by value would copy it once more at each call.
    fn transition(&mut self, call: &DiskCall) -> Result<(), DiskRefusal>
        ensures { moved_outcome result self.new.state self.old.state ≡ op_outcome self.old.device self.old.state call.now.op call.now.node call.now.table }
    {
        match call.op {
            DiskOp::ReqReadIndirectionTableOp(id, loc) => self.recv_read_indirection_table(id, loc),
            DiskOp::ReqReadNodeOp(id, loc) => self.recv_read_node(id, loc),
            DiskOp::ReqWriteIndirectionTableOp(id, loc) => self.recv_write_indirection_table(
                id, loc, call.table,
            ),
            DiskOp::ReqWriteNodeOp(id, loc) => self.recv_write_node(id, loc, call.node),
            DiskOp::RespReadIndirectionTableOp(id, b) => self.ack_read_indirection_table(
                id, b, call.table,
            ),
            DiskOp::RespReadNodeOp(id, b) => self.ack_read_node(id, b, call.node),
            DiskOp::RespWriteIndirectionTableOp(id) => self.ack_write_indirection_table(id),
            DiskOp::RespWriteNodeOp(id) => self.ack_write_node(id),
            DiskOp::NoDiskOp => Ok(()),
        }
    }

    // Any call on any disk. Its written form is asked of its parts, as a function that took the whole disk would copy it.
    pub fn next(self, call: DiskCall) -> DiskOutcome
        ensures { result ≡ disk_step self.device self.state call }
    {
        let s = self.state;
        let stored = records_ok(self.device, s.records);
        let waiting = queues_ok(self.device, s.queues);
        let form = disk_ok(self.device, s.rule, stored, waiting);
        let node_ok = sector::node_form(call.node);
        let table_ok = sector::table_form(call.table);
        let good = form & node_ok & table_ok;
        if !good {
            return DiskOutcome { answer: 1, disk: s };
        }
        let mut after = self;
        if let Err(refusal) = after.transition(&call) {
            return DiskOutcome {
                answer: number(refusal),
                disk: s,
            };
        }
        DiskOutcome {
            answer: 0,
            disk: after.state,
        }
    }
}
