//! Lists the two orders of dispatches that a command can ask for, and reads the words for them.
ghost use Rattle.std.specs.Prelude.{◌≡◌, option_map};
ghost use Rattle.std.specs.Option.{option_map_or};
ghost use Rattle.rw_words.specs.Order.{order_named, order_or_oldest};

/// The orders of dispatches: first comes the object that has waited longest, or the one that has waited shortest.
#[derive(Clone, Copy)]
pub enum Order {
    Oldest,
    Newest,
}

impl Order {
    // The order that a word names.
    fn named(word: &str) -> Option<Order>
        ensures { result ≡ order_named word.now }
    {
        if word == "oldest" {
            Some(Order::Oldest)
        } else if word == "newest" {
            Some(Order::Newest)
        } else {
            None
        }
    }

    // The same, and the oldest first where there is no word.
    pub(crate) fn or_oldest(word: Option<&str>) -> Option<Order>
        ensures { result ≡ order_or_oldest (option_map (λ text. text.now) word.entry) }
    {
        match word {
            Some(word) => Order::named(word),
            None => Some(Order::Oldest),
        }
    }
}
