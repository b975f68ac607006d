//! The line: all that was said, in its order, and how far each end has read it.

use crate::account::{Account, card, number_of, order};
use crate::dice::Dice;
use crate::ends::{new_bus, new_device};
use arrayvec::ArrayVec;
use osdp_bus::Bus;
use osdp_device::{Device, DeviceStatus, again, taken};
use osdp_frame::Burst;
use osdp_msg::{Command, Event, Outputs, Raw};
use std::alloc::Global;
use std::process::Abort;

/// The bytes of a burst: those here are short.
type Bytes = ArrayVec<u8, 64>;

/// A burst that was said.
#[derive(Drop)]
struct Said {
    /// The device that said it, or to which the panel did.
    device: usize,
    is_by_panel: bool,
    bytes: Bytes,
}

/// The ends of the line: the panel, and a device.
#[derive(Clone, Copy, PartialEq)]
pub enum End {
    Panel,
    Device(usize),
}

/// What belongs to one device.
#[derive(Drop)]
struct Site {
    device: Device<DeviceStatus>,
    /// How many of the bursts it has read, or lost.
    place: usize,
    /// Bursts of this device before this one are read no more, by it or by the panel: a session has opened since.
    floor: usize,
    /// Whether a session has begun whose opening ID hasn't gone out yet.
    is_fresh: bool,
    /// Whether it stays at a burst for a while.
    is_slow: bool,
    account: Account,
}

/// A line with a panel and two devices.
#[derive(Drop)]
pub struct Line {
    alloc: Global,
    bus: Bus,
    first: Site,
    second: Site,
    said: Vec<Said>,
    /// How many of the bursts the panel has read, or lost.
    place: usize,
    /// Whether the panel stays at a burst for a while.
    is_slow: bool,
    pub dice: Dice,
    now: u64,
}

fn new_site(rt: &impl Abort, alloc: Global, device: usize) -> Site {
    Site {
        device: new_device(rt, alloc, device),
        place: 0,
        floor: 0,
        is_fresh: false,
        is_slow: false,
        account: Account::new(),
    }
}

/// What belongs to a device, of the two.
fn site_of<'a>(first: &'a mut Site, second: &'a mut Site, device: usize) -> &'a mut Site {
    if device == 0 { first } else { second }
}

impl Line {
    pub fn new(rt: &impl Abort, alloc: Global, seed: u64) -> Line {
        Line {
            alloc,
            bus: new_bus(rt, alloc),
            first: new_site(rt, alloc, 0),
            second: new_site(rt, alloc, 1),
            said: Vec::new(alloc),
            place: 0,
            is_slow: false,
            dice: Dice::new(seed),
            now: 0,
        }
    }

    fn site(&mut self, device: usize) -> &mut Site {
        site_of(&mut self.first, &mut self.second, device)
    }

    /// The account of a device.
    pub fn account(&mut self, device: usize) -> &mut Account {
        &mut self.site(device).account
    }

    /// Time passes, mostly by some milliseconds.
    pub fn waits(&mut self) {
        let step = if self.dice.is_once_in(400) { 3000 } else { 8 };
        let pause = self.dice.roll(step);
        self.now = self.now.saturating_add(pause);
    }

    fn says(&mut self, rt: &impl Abort, device: usize, is_by_panel: bool, burst: &[u8]) {
        let mut bytes = Bytes::new();
        assert!(rt; bytes.try_extend_from_slice(burst).is_ok());
        let said = Said {
            device,
            is_by_panel,
            bytes,
        };
        self.said.push(said).expect(rt, "memory");
    }

    /// Each report that waits is told to the account of its device.
    fn tells_reports(&mut self, rt: &impl Abort) {
        for _ in 0..64 {
            let Some((entry, report)) = self.bus.report() else {
                return;
            };
            let site = site_of(&mut self.first, &mut self.second, entry);
            site.account.hears(rt, &report);
            self.bus.settle();
        }
    }

    /// The device reads what it holds, and answers.
    fn answers(&mut self, rt: &impl Abort, device: usize) {
        let mut out = Burst::new();
        for _ in 0..64 {
            let site = self.site(device);
            let Some(kind) = site.device.next(&mut out) else {
                return;
            };
            let heard = site.device.heard(kind);
            assert!(rt;
                matches!(again(&heard), None | Some(Command::Id(_))),
                "an order at number 0"
            );
            let number = taken(&heard).map(|command| number_of(rt, command));
            if let Some(number) = number {
                site.account.takes(rt, number);
            }
            if !out.is_empty() {
                self.says(rt, device, false, out.as_slice());
            }
        }
    }

    /// Bytes come to an end of the line.
    fn hands(&mut self, rt: &impl Abort, end: End, bytes: &[u8]) {
        let now = self.now;
        match end {
            End::Panel => {
                self.bus.on_bytes(bytes, now);
                self.tells_reports(rt);
            }
            End::Device(device) => {
                let count = self.site(device).device.take(bytes, now);
                self.answers(rt, device);
                let rest = bytes.get(count..).unwrap_or(&[]);
                let _ = self.site(device).device.take(rest, now);
                self.answers(rt, device);
            }
        }
    }

    /// An end sees the line silent: it holds no bytes after this.
    fn sees_silence(&mut self, rt: &impl Abort, end: End) {
        let now = self.now;
        match end {
            End::Panel => {
                self.bus.on_silence(now);
                self.tells_reports(rt);
            }
            End::Device(device) => {
                self.site(device).device.silence(now);
                self.answers(rt, device);
            }
        }
    }

    /// Each end sees the line silent.
    pub fn silences_all(&mut self, rt: &impl Abort) {
        self.sees_silence(rt, End::Device(0));
        self.sees_silence(rt, End::Device(1));
        self.sees_silence(rt, End::Panel);
    }

    /// The panel's clock: what it sends is said. Where it is the opening ID of a session, what was said before of its device is read no more.
    pub fn ticks(&mut self, rt: &impl Abort) {
        if self.first.is_fresh || self.second.is_fresh {
            self.silences_all(rt);
        }
        let early = if self.dice.is_once_in(50) { 500 } else { 0 };
        let mut out = Burst::new();
        let sends = self.bus.tick(self.now.saturating_sub(early), &mut out);
        self.tells_reports(rt);
        if !sends {
            return;
        }
        let bytes = out.as_slice();
        let device = usize::from(bytes.get(1) == Some(&6));
        let is_opening = bytes.get(5) == Some(&0x61);
        let floor = self.said.len();
        let site = self.site(device);
        if is_opening && site.is_fresh {
            site.is_fresh = false;
            site.floor = floor;
            site.account.may_repeat = true;
        }
        self.says(rt, device, true, bytes);
    }

    /// How far an end has read.
    fn place(&mut self, end: End) -> &mut usize {
        match end {
            End::Panel => &mut self.place,
            End::Device(device) => &mut self.site(device).place,
        }
    }

    /// An end stays at a burst for a while, or goes on.
    pub fn sets_slow(&mut self, end: End, is_slow: bool) {
        match end {
            End::Panel => self.is_slow = is_slow,
            End::Device(device) => self.site(device).is_slow = is_slow,
        }
    }

    /// The burst that an end reads next, or None where it has read all. One that it said itself, or that was said of a device before its
    /// session opened, is empty.
    fn ahead(&mut self, end: End) -> Option<Bytes> {
        let place = *self.place(end);
        let (first, second) = (self.first.floor, self.second.floor);
        let said = self.said.get(place)?;
        let is_own = match end {
            End::Panel => said.is_by_panel,
            End::Device(device) => !said.is_by_panel && said.device == device,
        };
        let floor = if said.device == 0 { first } else { second };
        let is_of_end = end == End::Panel || end == End::Device(said.device);
        if is_own || is_of_end && place < floor {
            return Some(Bytes::new());
        }
        let mut bytes = Bytes::new();
        let _ = bytes.try_extend_from_slice(said.bytes.as_slice());
        Some(bytes)
    }

    /// An end goes on to the next burst.
    fn goes_on(&mut self, end: End) {
        let place = self.place(end);
        *place = place.saturating_add(1);
    }

    /// The bytes in two pieces with a pause between. Where a session has opened meanwhile, the second is lost.
    fn hands_in_pieces(&mut self, rt: &impl Abort, end: End, bytes: &[u8]) {
        let at = self.dice.roll(bytes.len() as u64) as usize;
        self.hands(rt, end, bytes.get(..at).unwrap_or(&[]));
        let pause = self.dice.roll(30);
        self.now = self.now.saturating_add(pause);
        if self.dice.is_once_in(2) {
            self.ticks(rt);
        }
        let is_still_read = self.ahead(end).is_some_and(|it| !it.is_empty());
        if is_still_read {
            self.hands(rt, end, bytes.get(at..).unwrap_or(&[]));
        }
    }

    /// The bytes with one of them changed. The byte that says which check they end with stays.
    fn hands_damaged(&mut self, rt: &impl Abort, end: End, mut bytes: Bytes) {
        let at = self.dice.roll(bytes.len() as u64) as usize;
        let change = u8::try_from(self.dice.roll(255)).unwrap_or(0);
        if at != 4 {
            if let Some(byte) = bytes.get_mut(at) {
                *byte = *byte ^ change.wrapping_add(1);
            }
            self.hands(rt, end, bytes.as_slice());
        }
    }

    /// An end reads the next burst. One that is slow doesn't go on: the same burst comes to it again now and then.
    pub fn reads(&mut self, rt: &impl Abort, end: End) {
        let is_slow = match end {
            End::Panel => self.is_slow,
            End::Device(device) => self.site(device).is_slow,
        };
        if !is_slow {
            self.reads_next(rt, end);
        } else if self.dice.is_once_in(4) {
            let bytes = self.ahead(end).unwrap_or(Bytes::new());
            self.hands(rt, end, bytes.as_slice());
        }
    }

    /// An end reads the next burst: whole, in pieces, cut, damaged, after noise, or it loses it; or the burst comes once more.
    fn reads_next(&mut self, rt: &impl Abort, end: End) {
        let Some(bytes) = self.ahead(end) else {
            return;
        };
        if bytes.is_empty() {
            self.goes_on(end);
            return;
        }
        match self.dice.roll(32) {
            0 => {}
            1 => self.hands_damaged(rt, end, bytes),
            2 => {
                let at = self.dice.roll(bytes.len() as u64) as usize;
                self.hands(rt, end, bytes.get(..at).unwrap_or(&[]));
            }
            3 | 4 | 5 => self.hands_in_pieces(rt, end, bytes.as_slice()),
            6 => {
                self.hands(rt, end, &[0x00, 0xff, 0x17]);
                self.hands(rt, end, bytes.as_slice());
            }
            7 | 8 => {
                // it stays ahead: it comes once more
                self.hands(rt, end, bytes.as_slice());
                return;
            }
            _ => self.hands(rt, end, bytes.as_slice()),
        }
        self.goes_on(end);
    }

    /// All that was said and that an end hasn't read yet is lost to it.
    pub fn loses_all(&mut self, end: End) {
        let all = self.said.len();
        *self.place(end) = all;
    }

    /// An order for a device, while it has had fewer than it is given at most.
    pub fn orders(&mut self, rt: &impl Abort, device: usize, most: usize) {
        let number = self.account(device).issued;
        if number < most {
            let records = [order(rt, number)];
            let outputs = Outputs::new(&records).expect(rt, "an order");
            assert!(rt; self.bus.submit(device, &Command::Output(outputs)).is_ok());
            self.account(device).issued = number.saturating_add(1);
        }
    }

    /// Something happens at a device.
    pub fn queues(&mut self, rt: &impl Abort, device: usize, most: usize) {
        let now = self.now;
        let site = self.site(device);
        let number = site.account.queued;
        if number < most {
            let bytes = [card(rt, number)];
            let card = Raw::new(0, 0, 8, &bytes).expect(rt, "a card");
            assert!(rt; site.device.submit_event(&Event::Raw(card), now));
            site.account.queued = number.saturating_add(1);
        }
    }

    /// The panel takes back the order that has waited longest, where it may.
    pub fn withdraws(&mut self, rt: &impl Abort, device: usize) {
        if let Ok(Some(command)) = self.bus.withdrawable(device) {
            let site = site_of(&mut self.first, &mut self.second, device);
            site.account.withdraws(rt, &command);
        }
        let _ = self.bus.withdraw(device);
    }

    /// A session begins where none has.
    pub fn begins(&mut self, device: usize) {
        if self.bus.begin(device, self.now).is_ok() {
            self.site(device).is_fresh = true;
        }
    }

    /// A device is busy from now on, or ready.
    pub fn sets_busy(&mut self, device: usize, is_busy: bool) {
        self.site(device).device.set_busy(is_busy);
    }

    /// A device is made anew at its address. It goes on from where it had read.
    pub fn restarts_device(&mut self, rt: &impl Abort, device: usize) {
        let alloc = self.alloc;
        let site = self.site(device);
        site.device = new_device(rt, alloc, device);
        site.account.loses_events();
    }

    /// The panel is made anew, where nothing that was said is read any more.
    pub fn restarts_panel(&mut self, rt: &impl Abort) {
        self.silences_all(rt);
        self.loses_all(End::Panel);
        self.loses_all(End::Device(0));
        self.loses_all(End::Device(1));
        self.bus = new_bus(rt, self.alloc);
        self.first.is_fresh = false;
        self.second.is_fresh = false;
        self.first.account.loses_orders();
        self.second.account.loses_orders();
    }

    /// The account of a device is complete. How many of its orders were settled, and how many of its events reported.
    pub fn ends(&mut self, rt: &impl Abort, device: usize) -> (usize, usize) {
        let account = self.account(device);
        account.is_accounted_for(rt);
        (account.settled, account.reported)
    }
}
