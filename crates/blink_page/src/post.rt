//! Posting a separator to an inner page.
ghost use Rattle.std.specs.Prelude.{◌≡◌, ◌<◌, ◌≤◌, None, IsSome, length};
ghost use Rattle.blink_page.specs.Limits.{IsFan, IsPageNumber};
ghost use Rattle.blink_page.specs.Entries.{value_at, posted};
ghost use Rattle.blink_page.specs.Page.{IsKeyOf, with_entries};

use crate::entries::post_at;
use crate::page::Page;
use crate::search::place;

/// The result of a posting.
#[derive(Clone, Copy, Debug, PartialEq, Eq)]
pub enum Post {
    Done,
    Already,
    Full,
}

impl Page {
    ghost use Rattle.blink_page.specs.Post.{OnDone, UnlessDone, OnAlready, UnlessAlready, OnFull};

    /// Posts a split of a child: the child has the keys up to `separator`, and `child` is the new page for those above. A full
    /// page stays as it is, to be split.
    pub fn post(&mut self, fan: u8, separator: u64, child: u32) -> Post
        requires fan { IsFan fan }
        requires inner { 0 < self.old.level }
        requires separator { IsKeyOf self.old separator }
        requires child { IsPageNumber child }
        requires at_most_fan { length self.old.entries ≤ fan }

        // The separator's presence is checked before the page's fullness.
        ensures already { OnAlready result (IsSome (value_at separator self.old.entries)) }
        ensures absent { UnlessAlready result (value_at separator self.old.entries ≡ None) }
        ensures full { OnFull result (length self.old.entries ≡ fan) }
        ensures room { OnDone result (length self.old.entries < fan) }

        ensures done { OnDone result
            (self.new ≡ with_entries self.old (posted (separator, child) self.old.entries)) }
        ensures unchanged { UnlessDone result (self.new ≡ self.old) }
    {
        let at = place(&self.items, separator);
        if self.value_there(at, separator).is_some() {
            return Post::Already;
        }
        if self.items.len() == usize::from(fan) {
            return Post::Full;
        }
        post_at(&mut self.items, at, separator, u64::from(child));
        Post::Done
    }
}
