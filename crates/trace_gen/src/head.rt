//! The header of a made trace.
ghost use Rattle.std.specs.Prelude.{◌≡◌, ◌≤◌, IfOk};
ghost use Rattle.zone_stats.specs.Name.{IsName};
ghost use Rattle.trace_gen.specs.Header.{made_head, zone_of};

use listed::Listed;
use std::alloc::{AllocError, Global};
use trace_text::{ClockHead, Head, NamesHead, ZoneHead, ZoneKind};
use zone_stats::ZoneName;

/// The name that these bytes spell.
fn name(bytes: &[u8]) -> ZoneName
    requires { IsName bytes.now }
    ensures { result ≡ bytes.now }
{
    ZoneName::new(bytes).unwrap()
}

/// A zone of 1,024 slabs and buckets of 16, with no limit and no reserve.
fn zone(name: ZoneName, size: u32, kind: ZoneKind) -> ZoneHead
    ensures { result ≡ zone_of name size kind }
{
    ZoneHead {
        name,
        parent: None,
        size,
        slabs: 1024,
        bucket: 16,
        limit: 0,
        reserve: 0,
        kind,
    }
}

/// The header, with so many workers.
pub fn head(alloc: Global, workers: u32) -> Result<Head, AllocError>
    ensures { IfOk result (λ head. head ≡ made_head workers) }
{
    let zones = vec![in alloc;
        zone(name(b"alpha"), 64, ZoneKind::Plain),
        zone(name(b"beta"), 32, ZoneKind::Plain),
        zone(name(b"gamma"), 64, ZoneKind::Smr),
    ]?;
    let names = NamesHead {
        name: name(b"dir"),
        rows: 64,
        slabs: 64,
        bucket: 16,
    };
    Ok(Head {
        workers,
        domains: workers.min(2) as u8,
        clock: Some(ClockHead {
            start: 1,
            window: 1_073_741_824,
        }),
        detail: false,
        zones: Listed::from_vec(zones),
        names: Some(names),
    })
}
