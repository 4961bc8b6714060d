//! Groups: members of the same mask share a copy table.

ghost use Rattle.std.specs.Prelude.{◌≡◌, ◌==◌, ℕ, ◌+◌, ◌^◌, ◌<◌, true, All, IfOk, length, map, find, slice_index_or, vec_len, vec_capacity};
ghost use Rattle.std.specs.List.{IsDistinct};
ghost use Rattle.iio_mask.specs.Mask.{is_within};
ghost use Rattle.iio_layout.specs.Layout.{scan_size};
ghost use Rattle.iio_layout.specs.Shape.{count_of};
ghost use Rattle.iio_demux.specs.Table.{table_of};
ghost use Rattle.iio_device.specs.Groups.{GroupRecord, IsGroup, has_group, laid_out, remade, scan_for, scan_under};

use iio_base::Mem;
use iio_demux::Table;
use iio_layout::Shape;
use iio_mask::Mask;
use std::alloc::Global;
use std::marker::Model;

/// What the members of one mask share: the table from the active mask, and room for their scan of a capture.
#[derive(Debug, Drop)]
pub(crate) struct Group {
    mask: Mask,
    table: Table,
    scan: Vec<u8>,
}

impl Model for Group {
    ghost use Rattle.iio_device.specs.Groups.{GroupRecord};

    ghost Value = { GroupRecord };

    ghost view = { λ g. record { mask = g.mask.bits; table = g.table; scan = g.scan.items } };
}

impl Group {
    /// Makes a group of the mask `mask` for a sensor that is asked under `active`. All memory that it ever needs is allocated
    /// here.
    pub(crate) fn new(alloc: Global, shape: &Shape, active: Mask, mask: Mask) -> Result<Group, Mem>
        requires below { active.bits < 2 ^ count_of shape.now }
        requires own { mask.bits < 2 ^ count_of shape.now }
        requires within { is_within mask.bits active.bits ≡ true }
        ensures mask { IfOk result (λ g. g.mask ≡ mask.bits) }
        ensures group { IfOk result (λ g. IsGroup shape.now active.bits g) }
    {
        let table = Table::build(alloc, shape, active, mask)?;
        let scan = vec![in alloc; 0u8; table.buffer_size() as usize]?;
        Ok(Group { mask, table, scan })
    }

    // Makes the table again for another active mask, under which a scan has `size` bytes.
    fn remake(&mut self, shape: &Shape, active: Mask, size: u32)
        requires below { active.bits < 2 ^ count_of shape.now }
        requires size { size ≡ scan_size shape.now active.bits }
        requires within { is_within self.old.mask active.bits ≡ true }
        ensures { self.new ≡ remade shape.now active.bits self.old }
    {
        self.table.remake(shape, active, size, self.mask);
    }

    /// Lays out the group's scan from `union`, the scan under the active mask, unless the group is of the active mask itself.
    fn lay_out_under(&mut self, active: Mask, union: &[u8])
        requires union { length union.now ≡ self.old.table.active_size }
        requires room { length self.old.scan ≡ self.old.table.buffer_size }
        ensures { self.new ≡ laid_out active.bits union.now self.old }
    {
        if self.mask != active {
            self.table.apply(union, &mut self.scan);
        }
    }

    /// Whether the group is of that mask.
    pub(crate) fn is_of(&self, mask: Mask) -> bool
        ensures { result ≡ (self.now.mask == mask.bits) }
    {
        self.mask == mask
    }

    fn scan(&self) -> &[u8]
        ensures { result.now ≡ self.now.scan }
    {
        &self.scan
    }

    /// The size in bytes of the scan that the group's table copies from.
    pub(crate) fn active_size(&self) -> u32
        ensures { result ≡ self.now.table.active_size }
    {
        self.table.active_size()
    }
}

/// Makes each group's table again for another active mask, under which a scan has `size` bytes.
pub(crate) fn remake_all(groups: &mut Vec<Group>, shape: &Shape, active: Mask, size: u32)
    requires below { active.bits < 2 ^ count_of shape.now }
    requires size { size ≡ scan_size shape.now active.bits }
    requires within { All (λ (g : GroupRecord). is_within g.mask active.bits ≡ true) groups.old.items }
    ensures remade { groups.new.items ≡ map (remade shape.now active.bits) groups.old.items }
    ensures capacity { vec_capacity groups.new ≡ vec_capacity groups.old }
{
    for i in 0..groups.len() {
        groups[i].remake(shape, active, size);
    }
}

/// Lays out each group's scan from `union`, the scan under the active mask. A group of the active mask itself has no scan of
/// its own to lay out.
pub(crate) fn lay_out_all(groups: &mut Vec<Group>, active: Mask, union: &[u8])
    requires union { All (λ (g : GroupRecord). length union.now ≡ g.table.active_size) groups.old.items }
    requires room { All (λ (g : GroupRecord). length g.scan ≡ g.table.buffer_size) groups.old.items }
    ensures { groups.new.items ≡ map (laid_out active.bits union.now) groups.old.items }
{
    for i in 0..groups.len() {
        groups[i].lay_out_under(active, union);
    }
}

/// Returns the scan under a mask: that under the active mask, or that of the mask's group, which is looked for at `place`
/// first. The place where it is found is left in `place`.
pub(crate) fn scan_for<'a>(
    groups: &'a [Group],
    active: Mask,
    union: &'a [u8],
    mask: Mask,
    place: &mut usize,
) -> &'a [u8]
    requires apart { IsDistinct (λ a b. a == b) (map (λ (g : GroupRecord). g.mask) groups.now) }
    ensures { result.now ≡ scan_for active.bits union.now groups.now mask.bits }
{
    if mask == active {
        return union;
    }
    if stands_at(groups, *place, mask) {
        return groups[*place].scan();
    }
    *place = place_of(groups, mask);
    scan_under(groups, mask)
}

// Whether the group at that place is of that mask.
fn stands_at(groups: &[Group], place: usize, mask: Mask) -> bool
    ensures within { result ≡ true → place < length groups.now }
    ensures mask { result ≡ true → (d : GroupRecord) → (slice_index_or groups.now place d).mask ≡ mask.bits }
{
    place < groups.len() && groups[place].is_of(mask)
}

// The place of the group of that mask.
#[cold]
#[inline(never)]
fn place_of(groups: &[Group], mask: Mask) -> usize {
    groups
        .iter()
        .position(|group| group.is_of(mask))
        .unwrap_or(0)
}

// The scan of the group of that mask, found by a walk over all groups.
#[cold]
#[inline(never)]
fn scan_under(groups: &[Group], mask: Mask) -> &[u8]
    ensures { result.now ≡ scan_under groups.now mask.bits }
{
    for group in groups {
        if group.is_of(mask) {
            return &group.scan;
        }
    }
    &[]
}

/// Whether a group of that mask is there.
pub(crate) fn has_group(groups: &[Group], mask: Mask) -> bool
    ensures { result ≡ has_group groups.now mask.bits }
{
    groups.iter().any(|group| group.is_of(mask))
}
