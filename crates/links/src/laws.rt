//! Laws of links, for callers to cite.
ghost use Rattle.std.specs.Prelude.{◌≡◌, ◌↔◌, ℕ, List, Option, Some, IsFalse};
ghost use Rattle.sigtext.specs.Request.{Request};
ghost use Rattle.links.specs.WellFormed.{LinkValues, IsWellFormed};
ghost use Rattle.links.specs.Orders.{Terms, IsRequestFor, IsLinkFor};
ghost use Rattle.links.specs.SameOrders.{TellTheSame, OrdersTheSame};
ghost use Rattle.links.specs.Moments.{Now, HasBegun, IsNotOver};
ghost use Rattle.links.specs.Admits.{KnownKey, IsSignedBy, Admits};
ghost use Rattle.links.specs.Alike.{SameText, SaysTheSame};

/// A request has at most one list of parts. So if its key is known and not revoked, the parts that `inspect` found are enough
/// to decide whether the request is admitted. The signature and the window, which `judge` checks, decide it.
pub fn law_of_parts()
    ensures one { (r : Request) (p q : LinkValues) → IsWellFormed r p → IsWellFormed r q → q ≡ p }
    ensures admitted { (look_up : List ℕ → Option KnownKey) (r : Request) (n : Now)
        (p : LinkValues) (k : KnownKey) → IsWellFormed r p → look_up p.key_id ≡ Some k
        → IsFalse k.revoked
        → Admits look_up r n
        ↔ (IsSignedBy k.secret r p × HasBegun n p.start × IsNotOver n p.start p.expires) }
{}

/// Well-formed requests with the same signed text say the same. A link may be respelled on its way: with other escapes, its
/// parameters in another order, the field names in another case, or other fields that are not signed. What the rules find in it
/// stays the same, except the signature.
pub fn law_of_texts()
    ensures same { (r s : Request) (p q : LinkValues) → IsWellFormed r p → IsWellFormed s q
        → SameText r s p q → SaysTheSame r s p q }
{}

/// An order has only one link: two targets that are links for the same order are equal. And a written link is read back as its
/// order. Two orders that have the same target as their link agree on what the target tells: the path, the parameters, the names
/// of the signed headers, the start, the expiry, the key id and the region. The target does not contain the method, the host and
/// the headers' values. Only the signature depends on them. If one request is for both orders, they agree on these too. So only
/// the secret is not read back.
pub fn law_of_links()
    ensures only { (t : Terms) (a b : List ℕ) → IsLinkFor t a → IsLinkFor t b → b ≡ a }
    ensures told_back { (t u : Terms) (target : List ℕ) → IsLinkFor t target → IsLinkFor u target
        → TellTheSame t u }
    ensures read_back { (t u : Terms) (target : List ℕ) (r : Request) → IsLinkFor t target
        → IsLinkFor u target
        → IsRequestFor t target r → IsRequestFor u target r → OrdersTheSame t u }
{}
