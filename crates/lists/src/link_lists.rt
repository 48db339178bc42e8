//! Writing many links at once.
ghost use Rattle.std.specs.Prelude.{◌≡◌, ◌↔◌, ◌∷◌, ◌++◌, ℕ, List, ⊤, IsTrue, IfErr, IfOk, IfSome, IfNone, Ok, Err, codes, map};
ghost use Rattle.std.proofs.Common.{refl, subst, ◌∙◌};
ghost use Rattle.sigtext.specs.Counts.{CountsErrors};
ghost use Rattle.lists.specs.Lists.{by_keeper, by_reader, by_writer, AnswersList};
ghost use Rattle.lists.specs.LinkLists.{links_head, written_links_head, signing_of, wish_of, CanSign, IsLinkLine, IsLinkRow, IsLinkText, IsWish};

use crate::answerer::{Answerer, Heads};
use crate::answering::answer_list;
use crate::lines::line_of;
use crate::list_end::ListEnd;
use crate::list_fault::ListFault;
use crate::records::read_fields;
use boxes::{Command, has_form};
use csv::ByteRecord;
use links::{LinkFault, LinkKey, LinkOrder, Method, is_host, read_expiry, read_moment, write_link};
use sigv4::{Moment, is_key_id, is_region, is_secret};
use std::alloc::{AllocError, Global};
use std::io::{Read, Write};
use wire::Counted;

/// The head of a list of links to write.
const LINKS_HEAD: [&[u8]; 5] = [b"method", b"box", b"name", b"start", b"expires"];

/// The head of the list of written links.
const WRITTEN_LINKS_HEAD: [&[u8]; 6] = [b"method", b"box", b"name", b"start", b"expires", b"link"];

/// A link to write.
#[derive(Clone, Copy)]
pub(crate) struct Wish<'a> {
    method: Method,
    in_box: &'a [u8],
    name: &'a [u8],
    start: Moment,
    expires: u64,
}

// The link that the record asks for, if the record is well formed.
fn read_wish<'a>(texts: &[&'a [u8]; 5]) -> Option<Wish<'a>>
    ensures some { IfSome result (λ w. IsWish (map (λ t. t.now) texts.now) (wish_of w)) }
    ensures none { IfNone result (IsLinkRow (map (λ t. t.now) texts.now) → ⊥) }
{
    let [method, in_box, name, start, expires] = *texts;
    let method = Method::read(method)?;
    if method == Method::Post || !has_form(&Command::DropFile { in_box, name }) {
        return None;
    }
    let start = read_moment(start)?;
    let expires = read_expiry(expires)?;
    Some(Wish {
        method,
        in_box,
        name,
        start,
        expires,
    })
}

// The path of a file: `/BOX/NAME`.
fn path_of(alloc: Global, in_box: &[u8], name: &[u8]) -> Result<Vec<u8>, AllocError>
    ensures { IfOk result (λ path. path.items ≡ 47 ∷ in_box.now ++ 47 ∷ name.now) }
{
    let mut path = Vec::from_slice(alloc, b"/")?;
    path.extend_from_slice(in_box)?;
    path.push(b'/')?;
    path.extend_from_slice(name)?;
    Ok(path)
}

// Whether links can be signed with this key, host and region.
fn can_sign(key: &LinkKey<'_>, host: &[u8], region: &[u8]) -> bool
    ensures { IsTrue result ↔ CanSign (signing_of key.now host.now region.now) }
{
    is_host(host) && is_region(region) && is_key_id(key.id) && is_secret(key.secret)
}

/// Writes links with a key for a host.
#[derive(Drop)]
struct Signer<'a> {
    key: LinkKey<'a>,
    host: &'a [u8],
    region: &'a [u8],
    ghost can_sign: { CanSign (signing_of key host.now region.now) },
}

impl Signer<'_> {
    // The whole link: `http://`, the host and the target.
    fn link(&self, alloc: Global, wish: &Wish<'_>) -> Result<Vec<u8>, ListFault>
        requires { (fields : List (List ℕ)) × IsWish fields (wish_of wish.now) }
        ensures link { IfOk result (λ text. IsLinkText
            (signing_of self.now.key self.now.host.now self.now.region.now)
            (wish_of wish.now) text.items) }
        ensures memory { IfErr result (λ f. f ≡ ListFault.Memory) }
    {
        let Ok(path) = path_of(alloc, wish.in_box, wish.name) else {
            return Err(ListFault::Memory);
        };
        let order = LinkOrder {
            method: wish.method.text(),
            path: &path,
            params: &[],
            headers: &[],
            start: wish.start,
            expires: wish.expires,
        };
        let Ok(mut text) = front_of(alloc, self.host) else {
            return Err(ListFault::Memory);
        };
        match write_link(alloc, &order, &self.key, self.host, self.region, &mut text) {
            Ok(()) => Ok(text),
            Err(LinkFault::Memory) => Err(ListFault::Memory),
            Err(_) => unreachable!(),
        }
    }
}

// The part of a link before its target.
fn front_of(alloc: Global, host: &[u8]) -> Result<Vec<u8>, AllocError>
    ensures { IfOk result (λ text. text.items ≡ codes "http://" ++ host.now) }
{
    let mut text = Vec::from_slice(alloc, b"http://")?;
    text.extend_from_slice(host)?;
    Ok(text)
}

impl Answerer for Signer<'_> {
    ghost World = { ⊤ };

    ghost has_form = { IsLinkRow };

    ghost knows = { λ g w. ⊤ };

    ghost is_honest = { λ g. ⊤ };

    ghost is_line = { λ g w fields text.
        IsLinkLine (signing_of g.key g.host.now g.region.now) fields text };

    ghost stays = { λ g h r. (h ≡ g) × (r ≡ Ok tt) };

    fn answer(&mut self, alloc: Global, row: &ByteRecord) -> Result<Option<Vec<u8>>, ListFault> {
        let mut texts = [b"".as_slice(); 5];
        if !read_fields(row, &mut texts) {
            return Ok(None);
        }
        let Some(wish) = read_wish(&texts) else {
            return Ok(None);
        };
        let link = self.link(alloc, &wish)?;
        let [method, in_box, name, start, expires] = texts;
        let line = [method, in_box, name, start, expires, &link];
        Ok(Some(line_of(alloc, &line)?))
    }

    ghost unasked = { λ a. (refl, refl) };

    ghost joins = { λ a b c r p q. (q.0 ∙ p.0, q.1) };

    ghost same = { λ a b w r p k. tt };

    ghost honest = { λ a b r p h. tt };

    ghost steady = { λ a b r w fields text p l.
        subst (λ g. IsLinkLine (signing_of g.key g.host.now g.region.now) fields text) p.0 l };
}

/// Writes a link for each row of a list in CSV, as `links::write_link` does. The list's head is
/// `method,box,name,start,expires`. Each row has `PUT`, `GET` or `HEAD`, the name of a box, a file's name, a
/// moment like `20130524T000000Z`, and 1 to 604800 seconds without a leading zero. The box need not exist.
/// The output has the same rows in order, each with the link (`http://`, the host and the target) in an
/// additional last column `link`. The reader is returned with the number of its reads that failed.
///
/// # Errors
///
/// `Order` if the key, the host or the region is malformed. Nothing was read or written then. `Head` if the
/// first row is another or missing. Nothing was written then. `Row` with the number of the first malformed
/// row, counted without the head. The head and the links of the rows before it were written then. `Read` if a
/// read failed, `Write` if a write failed, `Memory` if memory was refused. A prefix of the links' text was
/// written then.
pub fn links_from<R: Read, W: Write>(
    alloc: Global,
    input: R,
    out: &mut Counted<W>,
    key: &LinkKey<'_>,
    host: &[u8],
    region: &[u8],
) -> ListEnd<R>
    ensures answers { AnswersList links_head written_links_head IsLinkRow
        (λ (w : ⊤). ⊤) (λ w. IsLinkLine (signing_of key.now host.now region.now))
        (R.remaining input) (W.contents out.old.inner) (W.contents out.new.inner) result.end }
    ensures order { (result.end ≡ Err ListFault.Order)
        ↔ (CanSign (signing_of key.now host.now region.now) → ⊥) }
    ensures untouched { result.end ≡ Err ListFault.Order
        → (result.reader.inner ≡ input) × (out.new ≡ out.old) }
    ensures keeper { by_keeper result.end ≡ Ok tt }
    ensures reads { CountsErrors 0 result.reader.faults (by_reader result.end) }
    ensures count { CountsErrors out.old.faults out.new.faults (by_writer result.end) }
{
    if !can_sign(key, host, region) {
        return ListEnd {
            end: Err(ListFault::Order),
            reader: Counted::new(input),
        };
    }
    let mut signer = Signer {
        key: *key,
        host,
        region,
    };
    let heads = Heads {
        read: &LINKS_HEAD,
        written: &WRITTEN_LINKS_HEAD,
    };
    answer_list(alloc, input, heads, &mut signer, out)
}
