//! The memory for the orders of a panel's devices.

ghost use Rattle.std.specs.Prelude.{◌≡◌, [], IfOk};

use crate::orders::Orders;
use std::alloc::{AllocError, Global};
use std::marker::Model;

/// How many devices there may be.
const MOST_DEVICES: usize = 16;

/// A list for the orders of sixteen devices, none of which is there yet.
#[derive(Drop)]
pub struct OrderLists {
    pub(crate) orders: Vec<Orders>,
}

impl Model for OrderLists {
    ghost use Rattle.std.specs.Prelude.{List};
    ghost use Rattle.osdp_panel.specs.Orders.{Orders};

    ghost Value = { List Orders };

    ghost view = { λ l. l.orders.items };
}

impl OrderLists {
    /// Takes the memory for them. AllocError where there is none.
    pub fn new(alloc: Global) -> Result<OrderLists, AllocError>
        ensures { IfOk result (λ l. l ≡ []) }
    {
        let orders = Vec::with_capacity(alloc, MOST_DEVICES)?;
        Ok(OrderLists { orders })
    }
}
