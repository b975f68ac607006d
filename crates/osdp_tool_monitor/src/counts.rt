//! What is counted of an address.

ghost use Rattle.std.specs.Prelude.{◌≡◌, Bool, None, Ok, true, false, nat_eq};
ghost use Rattle.osdp_frame.specs.Packet.{Packet};
ghost use Rattle.osdp_monitor.specs.Line.{nothing_wrong};
ghost use Rattle.osdp_monitor.specs.Saying.{asked, reply_told};
ghost use Rattle.osdp_msg.specs.declared.command.Command.TheVariants.{Poll};
ghost use Rattle.osdp_msg.specs.declared.reply.Reply.TheVariants.{Ack};
ghost use Rattle.osdp_tool_monitor.specs.Counts.{is_demand, is_poll, is_refused, kind_of_reason, kind_of_reply, more_if, rate_after};

use osdp_frame::FrameView;
use osdp_monitor::{Accusation, Found, Notice, is_poll};
use osdp_msg::{MsgFault, NakReason, Reply};

/// What is counted of an address. A count stays at the greatest number of 64 bits.
#[derive(Clone, Copy, Debug, PartialEq, Eq)]
pub struct Counts {
    /// Packets to the device.
    pub asked: u64,
    /// Those of them that are a POLL.
    pub polls: u64,
    /// Those that are the last packet once more.
    pub repeats: u64,
    /// Replies other than BUSY and NAK.
    pub answered: u64,
    /// BUSY.
    pub busy: u64,
    /// NAK.
    pub nak: u64,
    /// Replies that tell a card or keys.
    pub events: u64,
    /// Sessions that were opened.
    pub opened: u64,
    /// Moves to another address.
    pub moved: u64,
    /// Packets to the device and replies that were held to the rules.
    pub judged: u64,
    /// Packets to the device that could not be judged, but the first: what was known of it had been forgotten, or too little was heard.
    pub forgot: u64,
    /// Accusations of either end.
    pub accused: u64,
    /// NAK 4: restarts of the device.
    pub restarted: u64,
    /// Second replies to one packet, of which the reader was accused.
    pub seconds: u64,
    /// Copies of a packet that was answered.
    pub needless: u64,
    /// NAK 6: it demands Secure Channel.
    pub demands: u64,
    /// Packets to the device and from it with a security block.
    pub secured: u64,
    /// Packets to the device after which damage came before any other packet.
    pub damaged: u64,
    /// Packets to the device and from it with no damage before them.
    pub clean: u64,
    /// The rate that its last COM named, in bits a second; 0 where none came.
    pub rate: u32,
    /// Whether a reply other than BUSY and NAK has come to the last packet.
    pub heard: bool,
}

/// A reply, as it is counted.
#[derive(Clone, Copy, Debug, PartialEq, Eq)]
pub(crate) enum ReplyKind {
    Busy,
    Refused,
    /// NAK 6.
    Demands,
    Event,
    /// A COM that names this rate.
    Sets(u32),
    Other,
}

/// One more, where the test holds.
pub(crate) fn more_if(test: bool, count: u64) -> u64
    ensures { result ≡ more_if test count }
{
    if test && count < u64::MAX {
        count + 1
    } else {
        count
    }
}

/// One more.
pub(crate) fn one_more(count: u64) -> u64
    ensures { result ≡ more_if true count }
{
    more_if(true, count)
}

/// Whether a packet to a device is a POLL.
#[tactic(auto, using(crate::proofs::ByCode::poll_is))]
pub(crate) fn counts_as_poll(packet: &FrameView<'_>) -> bool
    ensures { result ≡ is_poll (asked packet.now) }
{
    is_poll(packet)
}

/// Whether the code alone tells that nothing is counted of a reply but an answer.
fn is_other(code: u8) -> bool
    ensures nak { result ≡ true → nat_eq code 0x41 ≡ false }
    ensures raw { result ≡ true → nat_eq code 0x50 ≡ false }
    ensures formatted { result ≡ true → nat_eq code 0x51 ≡ false }
    ensures keypad { result ≡ true → nat_eq code 0x53 ≡ false }
    ensures sets { result ≡ true → nat_eq code 0x54 ≡ false }
    ensures busy { result ≡ true → nat_eq code 0x79 ≡ false }
{
    code != 0x41 && code != 0x50 && code != 0x51 && code != 0x53 && code != 0x54 && code != 0x79
}

/// How a reply is counted. Of most kinds the code tells, and nothing is read.
#[tactic(auto, using(crate::proofs::ByCode::other_by_code))]
fn kind_of_reply(packet: &FrameView<'_>) -> ReplyKind
    ensures { result ≡ kind_of_reply (reply_told packet.now) }
{
    if is_other(packet.code()) {
        return ReplyKind::Other;
    }
    by_reading(&Reply::read(packet.code(), packet.payload()))
}

/// The same by what is read of it.
fn by_reading(read: &Result<Reply<'_>, MsgFault>) -> ReplyKind
    ensures { result ≡ kind_of_reply read.now }
{
    match read {
        Ok(Reply::Busy) => ReplyKind::Busy,
        Ok(Reply::Nak(nak)) => kind_of_reason(nak.reason()),
        Ok(Reply::Com(named)) => ReplyKind::Sets(named.baud_rate),
        Ok(Reply::Raw(_) | Reply::Formatted(_) | Reply::Keypad(_)) => ReplyKind::Event,
        Ok(_) | Err(_) => ReplyKind::Other,
    }
}

/// How a NAK is counted, by its reason.
fn kind_of_reason(reason: NakReason) -> ReplyKind
    ensures { result ≡ kind_of_reason reason }
{
    match reason {
        NakReason::SecurityConditions => ReplyKind::Demands,
        _ => ReplyKind::Refused,
    }
}

/// Whether it is a NAK.
fn is_refused(kind: ReplyKind) -> bool
    ensures { result ≡ is_refused kind }
{
    matches!(kind, ReplyKind::Refused | ReplyKind::Demands)
}

/// The rate that a reply sets, and else the one before.
fn rate_after(kind: ReplyKind, before: u32) -> u32
    ensures { result ≡ rate_after kind before }
{
    match kind {
        ReplyKind::Sets(rate) => rate,
        _ => before,
    }
}

/// Whether nothing is counted of a reply but an answer.
fn is_answer_alone(kind: ReplyKind, found: &Found) -> bool
    ensures kind { result ≡ true → kind ≡ ReplyKind.Other }
    ensures accusation { result ≡ true → found.now.accusation ≡ None }
    ensures notice { result ≡ true → found.now.notice ≡ None }
{
    matches!(
        (kind, found.accusation, found.notice),
        (ReplyKind::Other, None, None)
    )
}

impl Counts {
    ghost use Rattle.osdp_tool_monitor.specs.Counts.{after_any, after_any_packet, after_damage, after_found, after_packet, after_reply, after_sent, is_ghost, is_silent};

    /// Nothing came.
    pub const NONE: Counts = Counts {
        asked: 0,
        polls: 0,
        repeats: 0,
        answered: 0,
        busy: 0,
        nak: 0,
        events: 0,
        opened: 0,
        moved: 0,
        judged: 0,
        forgot: 0,
        accused: 0,
        restarted: 0,
        seconds: 0,
        needless: 0,
        demands: 0,
        secured: 0,
        damaged: 0,
        clean: 0,
        rate: 0,
        heard: false,
    };

    /// Whether nothing came.
    pub(crate) fn is_silent(&self) -> bool
        ensures { result ≡ is_silent self.now }
    {
        self.asked == 0 && self.answered == 0 && self.busy == 0 && self.nak == 0
    }

    /// Whether fewer than three packets of each kind came, after damage alone: damage made them.
    pub(crate) fn is_ghost(&self) -> bool
        ensures { result ≡ is_ghost self.now }
    {
        self.clean == 0 && self.asked < 3 && self.answered < 3 && self.busy < 3 && self.nak < 3
    }

    /// A packet came; `clean` where it came without damage before it, and `copy` where it is the last one to its address once more.
    pub(crate) fn count(&mut self, packet: &FrameView<'_>, clean: bool, copy: bool, found: &Found)
        ensures { self.new ≡ after_packet packet.now clean copy found.now self.old }
    {
        self.count_packet(packet, clean);
        if packet.is_reply() {
            self.count_reply(kind_of_reply(packet), found);
        } else {
            self.count_sent(packet, copy, found);
        }
    }

    /// A POLL came in which nothing was found, and that is no copy.
    fn count_poll(&mut self, clean: bool)
        ensures { (p : Packet) → p.reply ≡ false → p.block ≡ false → asked p ≡ Ok Poll → self.new ≡ after_packet p clean false nothing_wrong self.old }
    {
        self.clean = more_if(clean, self.clean);
        self.judged = one_more(self.judged);
        self.asked = one_more(self.asked);
        self.polls = one_more(self.polls);
        self.heard = false;
    }

    /// An ACK came in which nothing was found.
    fn count_ack(&mut self, clean: bool)
        ensures { (p : Packet) (copy : Bool) → p.reply ≡ true → p.block ≡ false → reply_told p ≡ Ok Ack → self.new ≡ after_packet p clean copy nothing_wrong self.old }
    {
        self.clean = more_if(clean, self.clean);
        self.judged = one_more(self.judged);
        self.answered = one_more(self.answered);
        self.heard = true;
    }

    /// A plain packet came: a POLL in which nothing was found, and that is no copy, or such an ACK.
    pub(crate) fn count_plain(&mut self, packet: &FrameView<'_>, clean: bool)
        requires bare { packet.now.block ≡ false }
        requires poll { packet.now.reply ≡ false → asked packet.now ≡ Ok Poll }
        requires ack { packet.now.reply ≡ true → reply_told packet.now ≡ Ok Ack }
        ensures { (copy : Bool) → (packet.now.reply ≡ false → copy ≡ false) → self.new ≡ after_packet packet.now clean copy nothing_wrong self.old }
    {
        if packet.is_reply() {
            self.count_ack(clean);
        } else {
            self.count_poll(clean);
        }
    }

    /// What is counted of any packet.
    fn count_packet(&mut self, packet: &FrameView<'_>, clean: bool)
        ensures { self.new ≡ after_any_packet packet.now clean self.old }
    {
        self.clean = more_if(clean, self.clean);
        self.secured = more_if(packet.has_block(), self.secured);
    }

    /// Damage came after a packet to it, before any other packet.
    pub(crate) fn count_damage(&mut self)
        ensures { self.new ≡ after_damage self.old }
    {
        self.damaged = more_if(true, self.damaged);
    }

    /// A packet to a device came. In most nothing is found, and they are no copies.
    fn count_sent(&mut self, packet: &FrameView<'_>, copy: bool, found: &Found)
        ensures { self.new ≡ after_sent packet.now copy found.now self.old }
    {
        self.forgot = more_if(!found.judged && self.asked != 0, self.forgot);
        self.judged = more_if(found.judged, self.judged);
        self.asked = more_if(true, self.asked);
        self.polls = more_if(counts_as_poll(packet), self.polls);
        if !copy && found.accusation.is_none() {
            self.heard = false;
            return;
        }
        self.repeats = more_if(copy, self.repeats);
        self.needless = more_if(copy && self.heard, self.needless);
        self.heard = copy && self.heard;
        self.accused = more_if(found.accusation.is_some(), self.accused);
    }

    /// A reply came. In most nothing is found, and they are an answer.
    fn count_reply(&mut self, kind: ReplyKind, found: &Found)
        ensures { self.new ≡ after_reply kind found.now self.old }
    {
        self.judged = more_if(found.judged, self.judged);
        if is_answer_alone(kind, found) {
            self.answered = more_if(true, self.answered);
            self.heard = true;
            return;
        }
        self.count_any(kind, found);
    }

    /// All that is counted of any reply, but whether it was judged.
    #[inline(never)]
    fn count_any(&mut self, kind: ReplyKind, found: &Found)
        ensures { self.new ≡ after_any kind found.now self.old }
    {
        let is_busy = matches!(kind, ReplyKind::Busy);
        let is_refused = is_refused(kind);
        self.answered = more_if(!is_busy && !is_refused, self.answered);
        self.heard = self.heard || !(is_busy || is_refused);
        self.busy = more_if(is_busy, self.busy);
        self.nak = more_if(is_refused, self.nak);
        self.demands = more_if(matches!(kind, ReplyKind::Demands), self.demands);
        self.events = more_if(matches!(kind, ReplyKind::Event), self.events);
        self.rate = rate_after(kind, self.rate);
        self.count_found(found);
    }

    /// What is counted of what is found in a reply.
    fn count_found(&mut self, found: &Found)
        ensures { self.new ≡ after_found found.now self.old }
    {
        self.opened = more_if(matches!(found.notice, Some(Notice::Opened)), self.opened);
        self.moved = more_if(matches!(found.notice, Some(Notice::Moved(_))), self.moved);
        self.restarted = more_if(
            matches!(found.notice, Some(Notice::Restarted)),
            self.restarted,
        );
        self.seconds = more_if(
            matches!(found.accusation, Some(Accusation::SecondReply)),
            self.seconds,
        );
        self.accused = more_if(found.accusation.is_some(), self.accused);
    }
}
