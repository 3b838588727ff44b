ghost use Rattle.std.specs.Prelude.{◌≡◌, length};
ghost use Rattle.std.specs.List.{list_all, list_any};
ghost use Rattle.tv_lemmas.specs.Members.{Each};
ghost use Rattle.tv_telling.specs.endings.Ends.{is_whole};
ghost use Rattle.tv_telling.specs.endings.Feeds.{IsLinkWithin, IsWithin, feed_from, feed_whole, has_whole_with, link_from, link_whole, with_step};

use crate::endings::Endings;
use tv_check::{NumberedFeed, NumberedLink, Port};

/// Whether all that a link delivers is known once a step is whole, beside those that are.
fn link_is_whole(link: &NumberedLink, endings: &Endings, step: u32) -> bool
    requires { IsLinkWithin (length endings.now.whole.items) link.now }
    ensures { result ≡ link_whole (with_step (is_whole endings.now) step) link.now }
{
    match link {
        NumberedLink::Input(_) => true,
        NumberedLink::Output(from, _) => *from == step || endings.is_whole(*from),
    }
}

fn links_are_whole(links: &[NumberedLink], endings: &Endings, step: u32) -> bool
    requires { Each (IsLinkWithin (length endings.now.whole.items)) links.now }
    ensures { result ≡ list_all (link_whole (with_step (is_whole endings.now) step)) links.now }
{
    for link in links {
        if !link_is_whole(link, endings, step) {
            return false;
        }
    }
    true
}

/// Whether all that a feed delivers is known once a step is whole, beside those that are. Takes no memory. Linear in the feed's
/// links.
pub fn is_whole_with(feed: &NumberedFeed, endings: &Endings, step: u32) -> bool
    requires { IsWithin (length endings.now.whole.items) feed.now }
    ensures { result ≡ feed_whole (with_step (is_whole endings.now) step) feed.now }
{
    match feed {
        NumberedFeed::Link(link) => link_is_whole(link, endings, step),
        NumberedFeed::Merge(links) => links_are_whole(links.as_slice(), endings, step),
        NumberedFeed::Constant => true,
    }
}

fn link_is_from(link: &NumberedLink, step: u32) -> bool
    ensures { result ≡ link_from step link.now }
{
    match link {
        NumberedLink::Input(_) => false,
        NumberedLink::Output(from, _) => *from == step,
    }
}

fn some_is_from(links: &[NumberedLink], step: u32) -> bool
    ensures { result ≡ list_any (link_from step) links.now }
{
    for link in links {
        if link_is_from(link, step) {
            return true;
        }
    }
    false
}

fn is_from(feed: &NumberedFeed, step: u32) -> bool
    ensures { result ≡ feed_from step feed.now }
{
    match feed {
        NumberedFeed::Link(link) => link_is_from(link, step),
        NumberedFeed::Merge(links) => some_is_from(links.as_slice(), step),
        NumberedFeed::Constant => false,
    }
}

/// Whether a port that takes its feed at once has all of it once the given step is whole, and not without it. Takes no memory.
/// Linear in the port's links.
pub fn has_whole(port: &Port, endings: &Endings, step: u32) -> bool
    requires { IsWithin (length endings.now.whole.items) port.now.feed }
    ensures { result ≡ has_whole_with (is_whole endings.now) step port.now }
{
    port.levels == 0 && (is_from(&port.feed, step) && is_whole_with(&port.feed, endings, step))
}
