//! Where the door is, and what it is. Both are kept by the program beside this one: it writes each line `keep ..` to a file before it sends anything more, and
//! gives the last one back as `kept ..` when this program starts again.

use osdp_panel::{Communication, PdId};
use osdp_words::Fields;
use std::fmt;

/// An address and a rate.
#[derive(Clone, Copy, Debug, PartialEq, Eq)]
pub struct Place {
    pub address: u8,
    pub rate: u32,
}

/// What a device is, but for its version and its firmware, which may be renewed.
#[derive(Clone, Copy, Debug, PartialEq, Eq)]
pub struct Identity {
    vendor: [u8; 3],
    model: u8,
    serial: u32,
}

impl Identity {
    /// What the answer to the opening tells.
    pub fn of(id: &PdId) -> Identity {
        Identity {
            vendor: id.vendor,
            model: id.model,
            serial: id.serial,
        }
    }
}

/// The place of the door that is in use, the other one while a COMSET isn't answered, which is tried next, and what the door is, once it has told it. In a line
/// the place in use stands last.
#[derive(Clone, Copy, Debug, PartialEq, Eq)]
pub struct Stand {
    pub place: Place,
    pub other: Option<Place>,
    pub identity: Option<Identity>,
}

impl Stand {
    /// A device of which nothing but its place is known.
    pub fn new(place: Place) -> Stand {
        Stand {
            place,
            other: None,
            identity: None,
        }
    }

    /// It is at this place.
    pub fn is_at(&mut self, place: Place) {
        self.place = place;
        self.other = None;
    }

    /// Of two places each is tried in its turn.
    pub fn take_turn(&mut self) {
        if let Some(other) = self.other {
            self.other = Some(self.place);
            self.place = other;
        }
    }

    /// Whether a device may be the door, by what is kept of it.
    pub fn may_be(&self, identity: Identity) -> bool {
        match self.identity {
            Some(known) => known == identity,
            None => true,
        }
    }
}

impl fmt::Display for Stand {
    fn fmt<W: fmt::Write>(&self, f: &mut fmt::Formatter<W>) -> fmt::Result {
        if let Some(other) = self.other {
            write!(f, "{} {} or ", other.address, other.rate)?;
        }
        write!(f, "{} {}", self.place.address, self.place.rate)?;
        if let Some(identity) = self.identity {
            let [a, b, c] = identity.vendor;
            write!(
                f,
                " is {a:02X}{b:02X}{c:02X} {} {}",
                identity.model, identity.serial
            )?;
        }
        Ok(())
    }
}

/// What a line says, beside turns.
#[derive(Clone, Copy, Debug, PartialEq, Eq)]
pub enum Call {
    /// Where the door is, as it was told last: `kept 7 9600 or 5 9600 is 53494D 1 12345`.
    Kept(Stand),
    /// The door is to have another address and rate: `move 7 9600`.
    Move(Place),
    /// The device that has answered is the door from now on: `accept`.
    Accept,
}

/// An address of a device and a rate.
fn read_place(fields: &mut Fields<'_>) -> Option<Place> {
    let address = fields.number_u8()?;
    let rate = fields.number_u32()?;
    if address > 126 {
        return None;
    }
    Some(Place { address, rate })
}

/// The stand that words tell.
fn read_stand(fields: &mut Fields<'_>) -> Option<Stand> {
    let mut place = read_place(fields)?;
    let (mut other, mut identity) = (None, None);
    let mut word = fields.word();
    if word == Some("or") {
        other = Some(place);
        place = read_place(fields)?;
        word = fields.word();
    }
    if word == Some("is") {
        let (vendor, model, serial) = (fields.vendor()?, fields.number_u8()?, fields.number_u32()?);
        identity = Some(Identity {
            vendor,
            model,
            serial,
        });
        word = fields.word();
    }
    if word.is_some() {
        return None;
    }
    Some(Stand {
        place,
        other,
        identity,
    })
}

/// The call that a line is.
pub fn read_call(line: &str) -> Option<Call> {
    let mut fields = Fields::of_line(line);
    match fields.word()? {
        "kept" => Some(Call::Kept(read_stand(&mut fields)?)),
        "move" => {
            let place = read_place(&mut fields)?;
            if fields.is_empty() {
                Some(Call::Move(place))
            } else {
                None
            }
        }
        "accept" if fields.is_empty() => Some(Call::Accept),
        _ => None,
    }
}

/// The COMSET that leads to a place.
pub fn comset(place: Place) -> Communication {
    Communication {
        address: place.address,
        baud_rate: place.rate,
    }
}
