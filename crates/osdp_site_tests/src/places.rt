//! What is refused; what comes to the panel, and when; and what is told.

use osdp_bus::{Bus, BusConfig, EntryNumber};
use osdp_controller::{LostCause, Report};
use osdp_frame::{Address, CheckKind};
use osdp_msg::{Command, PdId, Room, Spelling};
use osdp_site::{Presence, Site, SiteConfig, SiteFault};
use std::alloc::Global;

const DOOR: EntryNumber = 0;

/// A panel with one device, and this room for its commands.
fn new_panel(alloc: Global, room: Room) -> Option<Bus> {
    let mut panel = Bus::new(alloc, BusConfig::new(CheckKind::Crc, room)).ok()?;
    panel.add(Address::new(5)?).ok()?;
    Some(panel)
}

/// Room for two commands of twelve bytes together.
fn twelve_bytes() -> Room {
    Room {
        messages: 2,
        bytes: 12,
    }
}

/// A site of one entry with room for two states, and a pause of 300 ms, over a panel with this room.
fn new_site(alloc: Global, room: Room) -> Option<Site> {
    let config = SiteConfig {
        pause: 300,
        room: 2,
        bytes: room.bytes,
    };
    Site::new(alloc, 1, config, 1000).ok()
}

/// Wants what a text says; NoMemory stands for a text of no command.
fn wants(site: &mut Site, entry: EntryNumber, text: &str) -> Result<(), SiteFault> {
    let mut place = Spelling::new();
    match Command::parse_line(text, &mut place) {
        Ok(command) => site.wants(entry, &command),
        Err(_) => Err(SiteFault::NoMemory),
    }
}

/// A site of one entry with room for so many states, and a panel that has room for as many commands.
fn with_room(alloc: Global, states: usize) -> Option<(Site, Bus)> {
    let commands = Room::of(16);
    let config = SiteConfig {
        pause: 300,
        room: states,
        bytes: commands.bytes,
    };
    let site = Site::new(alloc, 1, config, 1000).ok()?;
    Some((site, new_panel(alloc, commands)?))
}

fn opened() -> Report<'static> {
    Report::Opened(PdId {
        vendor: [1, 2, 3],
        model: 1,
        version: 1,
        serial: 1,
        firmware_major: 1,
        firmware_minor: 1,
        firmware_build: 1,
    })
}

fn lost() -> Report<'static> {
    Report::Lost(LostCause::NoReply, None)
}

#[test]
fn what_is_no_state_is_refused(rt: HostRuntime) {
    let mut site = new_site(rt.alloc(), Room::of(2)).expect(&rt, "memory");
    let timed =
        "OUT 0:5:30\nOUT 0:6:30\nLED 0:0:2:1:0:2:2:50:1:1:0:1:1\nBUZ 0 2 5 5 3\nTEXT 0 3 5 1 1 41\nTEXT 0 4 5 1 1 41";
    for text in timed.lines() {
        assert!(rt; wants(&mut site, DOOR, text).err() == Some(SiteFault::Timed));
    }
    let none =
        "OUT 0:0:0\nOUT 0:7:0\nLED 0:0:0:0:0:0:0:0:0:1:0:1:1\nBUZ 0 0 5 5 0\nTEXT 0 5 0 1 1 41\nISTAT\nCOMSET 7 9600\nID 0";
    for text in none.lines() {
        assert!(rt; wants(&mut site, DOOR, text).err() == Some(SiteFault::NoState));
    }
    assert!(rt; wants(&mut site, DOOR, "OUT 0:1:0 1:1:0").err() == Some(SiteFault::Several));
    assert!(rt; wants(&mut site, 1, "OUT 0:1:0").err() == Some(SiteFault::NoEntry));
}

#[test]
fn there_is_room_for_so_many_states(rt: HostRuntime) {
    let mut site = new_site(rt.alloc(), Room::of(2)).expect(&rt, "memory");
    assert!(rt; wants(&mut site, DOOR, "OUT 0:2:0").is_ok());
    assert!(rt; wants(&mut site, DOOR, "BUZ 0 2 5 5 0").is_ok());
    assert!(rt; wants(&mut site, DOOR, "OUT 1:2:0").err() == Some(SiteFault::Full));
    assert!(rt; wants(&mut site, DOOR, "OUT 0:1:0").is_ok()); // the same again needs no room
}

#[test]
fn a_device_comes_and_goes(rt: HostRuntime) {
    let mut site = new_site(rt.alloc(), Room::of(2)).expect(&rt, "memory");
    assert!(rt; site.presence(DOOR) == Some(Presence::Offline(1000)));
    assert!(rt; site.heed(DOOR, &lost(), 1100).is_none()); // it was offline before
    assert!(rt; site.heed(DOOR, &opened(), 1200) == Some(Presence::Online(1200)));
    assert!(rt; site.heed(DOOR, &opened(), 1300).is_none());
    assert!(rt; site.heed(DOOR, &lost(), 1400) == Some(Presence::Offline(1400)));
    assert!(rt; site.heed(1, &opened(), 1500).is_none());
}

#[test]
fn a_session_begins_after_the_pause(rt: HostRuntime) {
    let mut site = new_site(rt.alloc(), Room::of(2)).expect(&rt, "memory");
    let mut panel = new_panel(rt.alloc(), Room::of(2)).expect(&rt, "memory");
    assert!(rt; site.next_deadline() == Some(1000));
    site.act(&mut panel, 999);
    assert!(rt; panel.is_closed(DOOR) == Some(true));
    site.act(&mut panel, 1000);
    assert!(rt; panel.is_closed(DOOR) == Some(false) && site.next_deadline().is_none());
    let _ = site.heed(DOOR, &lost(), 2000);
    assert!(rt; site.next_deadline() == Some(2300));
    assert!(rt; site.is_due(DOOR, 2299) == Some(false) && site.is_due(DOOR, 2300) == Some(true));
}

#[test]
fn states_go_to_a_device_that_is_online(rt: HostRuntime) {
    let mut site = new_site(rt.alloc(), Room::of(2)).expect(&rt, "memory");
    let mut panel = new_panel(rt.alloc(), Room::of(2)).expect(&rt, "memory");
    assert!(rt; wants(&mut site, DOOR, "OUT 0:2:0").is_ok());
    assert!(rt; wants(&mut site, DOOR, "BUZ 0 1 5 5 0").is_ok());
    site.act(&mut panel, 1000);
    assert!(rt; panel.waiting(DOOR) == Some(0));
    let _ = site.heed(DOOR, &opened(), 1500);
    assert!(rt; site.is_refreshed(DOOR) == Some(false));
    site.act(&mut panel, 1500);
    assert!(rt; panel.waiting(DOOR) == Some(2) && site.is_refreshed(DOOR) == Some(true));
    site.act(&mut panel, 1600);
    assert!(rt; panel.waiting(DOOR) == Some(2)); // each once
    assert!(rt; wants(&mut site, DOOR, "OUT 0:1:0").is_ok());
    site.act(&mut panel, 1700);
    assert!(rt; panel.waiting(DOOR) == Some(2) && site.is_refreshed(DOOR) == Some(false)); // there is no room
}

#[test]
fn what_is_too_long_is_refused(rt: HostRuntime) {
    let mut site = new_site(rt.alloc(), twelve_bytes()).expect(&rt, "memory");
    let long = "TEXT 0 1 0 1 1 414243444546"; // 13 bytes with its code
    assert!(rt; wants(&mut site, DOOR, long).err() == Some(SiteFault::TooLong));
    assert!(rt; wants(&mut site, DOOR, "TEXT 0 1 0 1 1 4142434445").is_ok());
    assert!(rt; wants(&mut site, DOOR, "OUT 0:2:0").is_ok());
    assert!(rt;
        wants(&mut site, DOOR, "TEXT 0 1 0 2 1 414243444546").err() == Some(SiteFault::TooLong)
    ); // before the site is full
    assert!(rt;
        wants(&mut site, DOOR, "TEXT 0 3 5 1 1 414243444546").err() == Some(SiteFault::Timed)
    );
}

#[test]
fn what_is_too_long_keeps_no_state_waiting(rt: HostRuntime) {
    let mut site = new_site(rt.alloc(), twelve_bytes()).expect(&rt, "memory");
    let mut panel = new_panel(rt.alloc(), twelve_bytes()).expect(&rt, "memory");
    assert!(rt; wants(&mut site, DOOR, "TEXT 0 1 0 1 1 414243444546").is_err());
    assert!(rt; wants(&mut site, DOOR, "OUT 0:2:0").is_ok());
    assert!(rt; wants(&mut site, DOOR, "BUZ 0 1 5 5 0").is_ok());
    site.act(&mut panel, 1000);
    let _ = site.heed(DOOR, &opened(), 1500);
    site.act(&mut panel, 1500);
    assert!(rt; panel.waiting(DOOR) == Some(2) && site.is_refreshed(DOOR) == Some(true));
}

/// An output by controls 1 to 4, an LED that takes its temporary state back, a buzzer that is off whatever its count, and a text with and without a new line.
#[test]
fn what_lasts_is_a_state(rt: HostRuntime) {
    let states =
        "OUT 0:1:0\nOUT 0:2:0\nOUT 0:3:0\nOUT 0:4:0\nLED 0:0:0:0:0:0:0:0:1:1:0:1:1\nLED 0:0:1:0:0:0:0:0:1:1:0:1:1\nBUZ 0 1 5 5 3\nBUZ 0 2 5 5 0\nTEXT 0 1 0 1 1 41\nTEXT 0 2 0 1 1 41";
    for text in states.lines() {
        let mut site = new_site(rt.alloc(), Room::of(2)).expect(&rt, "memory");
        assert!(rt; wants(&mut site, DOOR, text).is_ok());
    }
}

/// What differs in one number alone is another output, LED, buzzer or text.
#[test]
fn each_has_a_state_of_its_own(rt: HostRuntime) {
    let (mut site, mut panel) = with_room(rt.alloc(), 11).expect(&rt, "memory");
    let states =
        "OUT 0:2:0\nOUT 1:2:0\nLED 0:0:0:0:0:0:0:0:1:1:0:1:1\nLED 0:1:0:0:0:0:0:0:1:1:0:1:1\nLED 1:0:0:0:0:0:0:0:1:1:0:1:1\nBUZ 0 2 5 5 0\nBUZ 1 2 5 5 0\nTEXT 0 1 0 1 1 41\nTEXT 1 1 0 1 1 41\nTEXT 0 1 0 2 1 41\nTEXT 0 1 0 1 2 41";
    for text in states.lines() {
        assert!(rt; wants(&mut site, DOOR, text).is_ok());
    }
    assert!(rt; wants(&mut site, DOOR, "OUT 2:2:0").err() == Some(SiteFault::Full));
    for text in states.lines() {
        assert!(rt; wants(&mut site, DOOR, text).is_ok()); // in place of itself
    }
    site.act(&mut panel, 1000);
    let _ = site.heed(DOOR, &opened(), 1500);
    site.act(&mut panel, 1500);
    assert!(rt; panel.waiting(DOOR) == Some(11) && site.is_refreshed(DOOR) == Some(true));
}

/// Two states were submitted. A third one is wanted otherwise before it is submitted: it alone is, once.
#[test]
fn a_state_that_is_due_changes(rt: HostRuntime) {
    let (mut site, mut panel) = with_room(rt.alloc(), 3).expect(&rt, "memory");
    assert!(rt; wants(&mut site, DOOR, "OUT 0:2:0").is_ok());
    assert!(rt; wants(&mut site, DOOR, "OUT 1:2:0").is_ok());
    site.act(&mut panel, 1000);
    let _ = site.heed(DOOR, &opened(), 1500);
    site.act(&mut panel, 1500);
    assert!(rt; panel.waiting(DOOR) == Some(2));
    assert!(rt; wants(&mut site, DOOR, "OUT 2:2:0").is_ok());
    assert!(rt; wants(&mut site, DOOR, "OUT 2:1:0").is_ok());
    site.act(&mut panel, 1600);
    assert!(rt; panel.waiting(DOOR) == Some(3) && site.is_refreshed(DOOR) == Some(true));
}

/// Orders that wait as a session begins are stale: none of them goes out in it.
#[test]
fn orders_that_wait_are_taken_back(rt: HostRuntime) {
    let (mut site, mut panel) = with_room(rt.alloc(), 1).expect(&rt, "memory");
    for _ in 0..3 {
        assert!(rt; panel.submit(DOOR, &Command::LocalStatus).is_ok());
    }
    site.act(&mut panel, 999);
    assert!(rt; panel.waiting(DOOR) == Some(3)); // no session is due yet
    site.act(&mut panel, 1000);
    assert!(rt; panel.waiting(DOOR) == Some(0) && panel.is_closed(DOOR) == Some(false));
}

/// A pause of a second, and room for 16 states.
#[test]
fn a_site_has_its_defaults(rt: HostRuntime) {
    let config = SiteConfig::new(twelve_bytes());
    assert!(rt; config.pause == 1000 && config.room == 16 && config.bytes == 12);
}
