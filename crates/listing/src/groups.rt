// The lines of the concatenations, each with those of its components.
ghost use Rattle.std.specs.Prelude.{◌≡◌, map, ◌-◌, ◌≤◌};
ghost use Rattle.definition.specs.Basics.{tab, joined};
ghost use Rattle.definition.specs.Image.{u32_at};
ghost use Rattle.definition.specs.Answer.{concat_at, field_at};
ghost use Rattle.definition.specs.Listing.{field_line, concat_lines};
ghost use Rattle.listing.specs.writer.Writes.{Writes};
ghost use Rattle.listing.specs.group.Line.{group_line};
ghost use Rattle.listing.specs.Outcomes.{stop_of};

use crate::answer::Answer;
use crate::writer::Writer;

// Where `size` components from component k end, of `count`.
fn stop_of(k: u32, size: u32, count: u32) -> u32
    requires { k ≤ count }
    ensures { result ≡ stop_of k size count }
{
    k + size.min(count - k)
}

impl Writer<'_> {
    // The own line of concatenation i.
    fn put_group(&mut self, a: &Answer, i: u32)
        ensures { Writes self.old (group_line i (concat_at a.now.bytes.now i)) self.new }
    {
        let place = limits::HEAD_SIZE + limits::CONCATENATION_SIZE * (i as usize);
        let size = a.u32_at(place);
        let align = a.u32_at(place + 4);
        let flags = a.u32_at(place + 8);
        let width = a.width_at(place + 12);
        self.put_byte(b'c');
        self.put_count(i as u64);
        self.put_count(size as u64);
        self.put_summary(width, align, flags);
        self.put_byte(b'\n');
    }

    // The lines of the components from one to another.
    fn put_fields(&mut self, a: &Answer, from: u32, to: u32)
        ensures { Writes self.old (joined (map field_line (tab (field_at a.now.image.now a.now.bytes.now) from (to - from)))) self.new }
    {
        for k in from..to {
            self.put_field(a, k);
        }
    }

    pub(crate) fn put_groups(&mut self, a: &Answer)
        ensures { let s = a.now.bytes.now in
            Writes self.old (concat_lines 0 (tab (concat_at s) 0 (u32_at s 0)) (tab (field_at a.now.image.now s) 0 (u32_at s 4))) self.new }
    {
        let groups = a.u32_at(0);
        let fields = a.u32_at(4);
        let mut k: u32 = 0;
        for i in 0..groups {
            let place = limits::HEAD_SIZE + limits::CONCATENATION_SIZE * (i as usize);
            let to = stop_of(k, a.u32_at(place), fields);
            self.put_group(a, i);
            self.put_fields(a, k, to);
            k = to;
        }
    }
}
