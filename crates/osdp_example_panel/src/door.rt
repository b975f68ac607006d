//! The door: where it is, what it is, and when its session begins. What is to be kept of it is told by a line `keep ..` before anything more is sent.

use super::kept::{Call, Identity, Place, Stand, comset, read_call};
use osdp_panel::{Address, Command, EntryNumber, Panel, Report};
use std::io;

/// From a session that has ended to the next one, in milliseconds.
const PAUSE: u64 = 1000;

/// The first device of the panel.
pub const DOOR: EntryNumber = 0;
/// Where it is at first.
pub const FIRST: Place = Place {
    address: 5,
    rate: 9600,
};
/// Where the door is, the rate of the port, the device that has answered the opening, another device than the door that has answered last and where it stands, whether
/// nothing more is said to it, so that its session ends, and when the next session begins; none where one has begun.
#[derive(Drop)]
pub struct Door {
    stand: Stand,
    rate: u32,
    answered: Option<Identity>,
    other: Option<(Identity, Place)>,
    pub is_left: bool,
    pub begins: Option<u64>,
}

impl Door {
    /// At first it is where it was made to be, and its session begins at once.
    pub fn new() -> Door {
        Door {
            stand: Stand::new(FIRST),
            rate: FIRST.rate,
            answered: None,
            other: None,
            is_left: false,
            begins: Some(0),
        }
    }

    /// Whether the session is open, and the device is the door.
    pub fn may_order(&self) -> bool {
        match self.answered {
            Some(answered) => self.stand.may_be(answered),
            None => false,
        }
    }

    /// Tells where the door is, for the program beside this one to keep.
    fn keep(&self, rt: &HostRuntime) -> io::Result<()> {
        println!(rt; "keep {}", self.stand)
    }

    /// Takes back what still waits as a session ends, since it is stale. A COMSET among it has not gone out, so the door is where it was.
    fn take_back(&mut self, rt: &HostRuntime, panel: &mut Panel) -> io::Result<()> {
        let before = self.stand;
        for _ in 0..panel.waiting(DOOR).unwrap_or(0) {
            if let Ok(Some(Command::Comset(_))) = panel.withdrawable(DOOR) {
                self.stand.is_at(before.place);
            }
            let _ = panel.withdraw(DOOR);
        }
        if self.stand == before {
            Ok(())
        } else {
            self.keep(rt)
        }
    }

    /// Begins a session whose moment has come, at each of its places in turn. The orders that waited are taken back before: while a COMSET waits no address is set.
    pub fn begin(&mut self, rt: &HostRuntime, panel: &mut Panel, now: u64) -> io::Result<()> {
        match self.begins {
            Some(begins) if begins <= now => self.begins = None,
            Some(_) | None => return Ok(()),
        }
        self.take_back(rt, panel)?;
        self.stand.take_turn();
        let Place { address, rate } = self.stand.place;
        if let Some(address) = Address::device(address) {
            let _ = panel.retarget(DOOR, address);
        }
        let _ = panel.begin(DOOR, now);
        if rate != self.rate {
            self.rate = rate;
            println!(rt; "rate {rate}")?;
        }
        Ok(())
    }

    /// Another device than the door has answered, which is told once while it stands there. Of two places the door may be at the other one: so this session is let end.
    fn meet(&mut self, rt: &HostRuntime, identity: Identity) -> io::Result<()> {
        let place = self.stand.place;
        self.is_left = self.stand.other.is_some();
        if self.other == Some((identity, place)) {
            return Ok(());
        }
        self.other = Some((identity, place));
        let address = place.address;
        println!(rt; "another device at {address}: it gets no order until accept")
    }

    /// The other device that was told last is the door from now on. Where it is, is known once its session opens again, if that doesn't stay open.
    fn accept(&mut self, rt: &HostRuntime, identity: Identity) -> io::Result<()> {
        if self.answered.is_some() && !self.is_left {
            return self.note(rt, identity);
        }
        self.stand.identity = Some(identity);
        self.other = None;
        self.keep(rt)
    }

    /// The door is this device, at the place in use.
    fn note(&mut self, rt: &HostRuntime, identity: Identity) -> io::Result<()> {
        let before = self.stand;
        self.other = None;
        self.stand.is_at(before.place);
        self.stand.identity = Some(identity);
        if self.stand == before {
            Ok(())
        } else {
            self.keep(rt)
        }
    }

    /// Does what a report asks for about the door's place and its session.
    pub fn heed(&mut self, rt: &HostRuntime, report: &Report<'_>, now: u64) -> io::Result<()> {
        if let Report::Moved(..) | Report::Lost(..) = report {
            self.begins = Some(now.saturating_add(PAUSE));
        }
        match report {
            Report::Opened(id) => {
                let identity = Identity::of(id);
                self.answered = Some(identity);
                if self.stand.may_be(identity) {
                    self.note(rt, identity)
                } else {
                    self.meet(rt, identity)
                }
            }
            Report::Settled(Command::Comset(_), _) => {
                let place = self.stand.place; // it was refused
                self.stand.is_at(place);
                self.keep(rt)
            }
            Report::Moved(_, com) => {
                let (address, rate) = (com.address, com.baud_rate);
                self.stand.is_at(Place { address, rate });
                (self.answered, self.is_left) = (None, false);
                self.keep(rt)
            }
            Report::Lost(..) => {
                (self.answered, self.is_left) = (None, false);
                Ok(())
            }
            _ => Ok(()),
        }
    }

    /// Orders that the door goes to another place. Both places are kept before the COMSET can go out; where the panel refuses it the door stays where it is.
    fn go(&mut self, rt: &HostRuntime, panel: &mut Panel, place: Place) -> io::Result<()> {
        if !self.may_order()
            || self.stand.other.is_some()
            || panel
                .submit(DOOR, &Command::Comset(comset(place)), u64::MAX)
                .is_err()
        {
            return println!(rt; "refused line");
        }
        self.stand.other = Some(place);
        self.keep(rt)
    }

    /// Does what a line says that is no turn.
    pub fn call(&mut self, rt: &HostRuntime, panel: &mut Panel, line: &str) -> io::Result<()> {
        match (read_call(line), self.answered, self.other) {
            (Some(Call::Kept(stand)), None, _) => {
                self.stand = stand;
                Ok(())
            }
            (Some(Call::Move(place)), Some(_), _) => self.go(rt, panel, place),
            (Some(Call::Accept), _, Some((identity, _))) => self.accept(rt, identity),
            _ => println!(rt; "refused line"),
        }
    }
}
