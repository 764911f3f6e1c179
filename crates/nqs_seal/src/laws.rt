//! Laws for callers: what a datagram is opened to. That nobody finds a tag is none of them.
//!
//! A caller calls the function for its contract; it does nothing.

ghost use Rattle.std.specs.Prelude.{◌≡◌, ◌≢◌, ◌<◌, ◌∷◌, ◌++◌, [], List, ℕ, length};
ghost use Rattle.nqs_outside.specs.Asked.{came, inbound};
ghost use Rattle.nqs_seal.specs.Hmac.{hmac};
ghost use Rattle.nqs_seal.specs.Sealed.{opened_one, sealed};

/// What was sealed is opened to itself.
pub fn sealed_datagrams_open()
    ensures { (key bytes : List ℕ) → opened_one key (inbound (came (sealed key bytes))) ≡ inbound (came bytes) ∷ [] }
{}

/// What is opened to a datagram is that datagram, sealed.
pub fn only_sealed_datagrams_open()
    ensures { (key bytes body : List ℕ) → opened_one key (inbound (came bytes)) ≡ inbound (came body) ∷ [] → bytes ≡ sealed key body }
{}

/// What is shorter than a tag is opened to nothing.
pub fn short_datagrams_are_nothing()
    ensures { (key bytes : List ℕ) → length bytes < 32 → opened_one key (inbound (came bytes)) ≡ [] }
{}

/// What has another tag behind it than its own is opened to nothing.
pub fn other_tags_are_nothing()
    ensures { (key bytes tag : List ℕ) → length tag ≡ 32 → tag ≢ hmac key bytes → opened_one key (inbound (came (bytes ++ tag))) ≡ [] }
{}

/// What was sealed with another key, by which its tag is another, is opened to nothing.
pub fn other_keys_are_nothing()
    ensures { (key other bytes : List ℕ) → hmac other bytes ≢ hmac key bytes → opened_one key (inbound (came (sealed other bytes))) ≡ [] }
{}
