//! What a map and its sessions show of their rows and page numbers.
use crate::same::{same, same_for};
use crate::shared::{Two, Who};
use blink_batch::Op;
use blink_generation::{Session, Stock};
use std::process::Abort;

#[derive(Clone, Copy)]
pub(crate) enum Sight {
    // The session has this.
    Stock(Who, Stock),
    // The first session has so many rows in all.
    Rows(u64),
    // All that the session has is too little for the operation.
    LacksRoom(Who, Op),
    HasRoom(Who, Op),
    // The pool has so many rows or page numbers.
    PoolRows(u64),
    PoolPages(u64),
}

impl Two {
    pub(crate) fn see(&self, rt: &impl Abort, sight: Sight) {
        match sight {
            Sight::Stock(who, stock) => same(rt, &self.map.stock(self.session(who)), &stock),
            Sight::Rows(rows) => same(rt, &rows_of(self.map.stock(&self.one)), &rows),
            Sight::LacksRoom(who, op) => {
                same_for(rt, &self.session(who).lacks_room_in_all(op), &true, &op);
            }
            Sight::HasRoom(who, op) => {
                same_for(rt, &self.session(who).lacks_room_in_all(op), &false, &op);
            }
            Sight::PoolRows(rows) => same(rt, &self.map.room().0, &rows),
            Sight::PoolPages(pages) => same(rt, &self.map.room().1, &pages),
        }
    }

    fn session(&self, who: Who) -> &Session {
        match who {
            Who::One => &self.one,
            Who::Other => &self.other,
        }
    }
}

// The number of all rows that a session has.
fn rows_of(stock: Stock) -> u64 {
    stock
        .unwritten
        .wrapping_add(stock.free)
        .wrapping_add(stock.taken_out)
        .wrapping_add(stock.waiting)
}
