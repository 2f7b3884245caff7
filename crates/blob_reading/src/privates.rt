//! The private regions of a locus.
ghost use Rattle.std.specs.Prelude.{◌≡◌, ◌+◌, ◌-◌, ◌*◌, ◌<◌, ◌≤◌, [], IfOk, IfErr};
ghost use Rattle.blob_facts.specs.Fields.{IsFound, IsRefused, Spells};
ghost use Rattle.blob_facts.specs.Loci.{ArePrivatesIn, IsPrivateIn, end_page as end_page_of, first_page as first_page_of, least_host as least_host_of};

use crate::fields::{Parsed, read_byte};
use crate::regions::{end_of, read_region};
use base_types::{Entity, MOST_ENTITIES, MOST_PAGES, MOST_PRIVATES, Private};
use blob_facts::Privates;

/// The last number of an entity.
const LAST_HOST: u8 = MOST_ENTITIES - 1;

/// The page before which a region that is made in this host ends, where so many follow it.
fn end_page(made: u8, left: u8) -> u16
    requires { left < MOST_PRIVATES }
    ensures page { result ≡ end_page_of made left }
    ensures size { result ≤ MOST_PAGES }
    ensures some { 0 < result }
{
    if made == LAST_HOST {
        MOST_PAGES as u16 - left as u16
    } else {
        MOST_PAGES as u16
    }
}

/// The first host with a free page that leaves enough for those that follow.
fn least_host(host: u8, page: u16, left: u8) -> u8
    requires host { host < MOST_ENTITIES }
    requires left { left < MOST_PRIVATES }
    ensures { result ≡ least_host_of host page left }
{
    if page < end_page(host, left) {
        host
    } else {
        host + 1
    }
}

/// The first free page of the host where a region is made.
fn first_page(host: u8, page: u16, made: u8) -> u16
    ensures { result ≡ first_page_of host page made }
{
    if made == host { page } else { 0 }
}

/// A private region, where those before it end in a host before a page, and so many follow it.
fn read_private<'a>(bytes: &'a [u8], host: u8, page: u16, left: u8) -> Parsed<'a, Private>
    requires host { host < MOST_ENTITIES }
    requires left { left < MOST_PRIVATES }
    requires room { page + left + 1 ≤ MOST_PAGES * (MOST_ENTITIES - host) }
    ensures read { IfOk result (λ r. IsFound (IsPrivateIn host page left) bytes.now r.0 r.1.now) }
    ensures refused { IfErr result (λ stuck. IsRefused (Spells (IsPrivateIn host page left)) bytes.now stuck.rest.now) }
{
    let least = least_host(host, page, left);
    let (made, rest) = read_byte(bytes, least, LAST_HOST)?;
    let first = first_page(host, page, made);
    let end = end_page(made, left);
    let (region, rest) = match read_region(rest, first, end) {
        Ok(read) => read,
        Err(stuck) => return Err(stuck),
    };
    let private = Private {
        made: Entity::of(made),
        region,
    };
    Ok((private, rest))
}

/// Fills an empty list with no fewer and no more private regions than these. Where they are refused, the list has some of them.
pub(crate) fn read_privates<'a>(
    bytes: &'a [u8],
    least: u8,
    most: u8,
    privates: &mut Privates,
) -> Parsed<'a, ()>
    requires some { least ≤ most }
    requires few { most ≤ MOST_PRIVATES }
    requires empty { privates.old ≡ [] }
    ensures read { IfOk result (λ r. IsFound (ArePrivatesIn least most) bytes.now privates.new r.1.now) }
    ensures refused { IfErr result (λ stuck. IsRefused (Spells (ArePrivatesIn least most)) bytes.now stuck.rest.now) }
{
    let (count, mut rest) = read_byte(bytes, least, most)?;
    let mut host = 0;
    let mut page = 0;
    for place in 0..count {
        let (private, behind) = match read_private(rest, host, page, count - place - 1) {
            Ok(read) => read,
            Err(stuck) => return Err(stuck),
        };
        host = private.made.number();
        page = end_of(&private.region);
        privates.push(private);
        rest = behind;
    }
    Ok(((), rest))
}
