//! Calls on what a handle holds.

/// Takes the machine out of a handle, does a call on it, and puts it back. Gives the number of the call's status, or that there is
/// no machine.
macro_rules! on_held {
    ($handle:ident, $alloc:ident, |$machine:ident| $call:expr) => {
        match $handle.take($alloc) {
            Some(mut $machine) => {
                let status = $call;
                $handle.put($machine);
                status.number()
            }
            None => Status::NoMachine.number(),
        }
    };
}

/// Puts a new machine into a handle that holds none. Gives the number of the call's status.
macro_rules! put_new {
    ($handle:ident, $made:expr, |$refused:ident| $status:expr) => {{
        if $handle.is_live() {
            return Status::InUse.number();
        }
        match $made {
            Ok(machine) => {
                $handle.put(machine);
                Status::Done.number()
            }
            Err($refused) => $status.number(),
        }
    }};
}

/// Frees the machine that a handle holds. Gives the number of the call's status.
macro_rules! freed {
    ($handle:ident, $alloc:ident) => {
        match $handle.take($alloc) {
            Some(_) => Status::Done.number(),
            None => Status::NoMachine.number(),
        }
    };
}

/// Does a call on a machine at a moment, which is seen where the call is done. One that lies too far after the greatest one seen is
/// refused.
macro_rules! at_moment {
    ($machine:ident, $now:ident, $call:expr) => {{
        if !$machine.clock.accepts($now) {
            return Status::MomentTooFar;
        }
        let status = $call;
        if let Status::Done = status {
            $machine.clock.see($now);
        }
        status
    }};
}

pub(crate) use at_moment;
pub(crate) use freed;
pub(crate) use on_held;
pub(crate) use put_new;
