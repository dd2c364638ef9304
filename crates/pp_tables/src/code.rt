//! The messages of the code: mappings, functions, and locations with their lines.

use crate::ReadRefusal;
use crate::fields::{push_message, set_bool, set_int, set_uint};
use crate::message::Message;
use pp_base::List;
use pp_model::{Function, Line, Location, Mapping};
use pp_wire::Field;
use std::alloc::Global;

impl Message for Mapping {
    ghost use Rattle.std.specs.Prelude.{refl};
    ghost use Rattle.pp_tables.specs.Tables.{mapping_rules, no_mapping, mapping_after};
    ghost use Rattle.pp_tables.specs.Takes.{mapping_put};
    ghost use Rattle.pp_tables.specs.Filling.{mapping_more};

    ghost rules = { mapping_rules };

    ghost empty = { no_mapping };

    ghost put = { mapping_put };

    ghost filled = { mapping_after };

    fn none(_: Global) -> Self {
        Mapping {
            id: 0,
            start: 0,
            limit: 0,
            offset: 0,
            file: 0,
            build_id: 0,
            has_functions: false,
            has_filenames: false,
            has_line_numbers: false,
            has_inline_frames: false,
        }
    }

    fn take(&mut self, _: Global, field: &Field<'_>) -> Result<(), ReadRefusal> {
        match field.number {
            // uint64 id = 1;
            1 => set_uint(&mut self.id, field),
            // uint64 memory_start = 2;
            2 => set_uint(&mut self.start, field),
            // uint64 memory_limit = 3;
            3 => set_uint(&mut self.limit, field),
            // uint64 file_offset = 4;
            4 => set_uint(&mut self.offset, field),
            // int64 filename = 5;
            5 => set_int(&mut self.file, field),
            // int64 build_id = 6;
            6 => set_int(&mut self.build_id, field),
            // bool has_functions = 7;
            7 => set_bool(&mut self.has_functions, field),
            // bool has_filenames = 8;
            8 => set_bool(&mut self.has_filenames, field),
            // bool has_line_numbers = 9;
            9 => set_bool(&mut self.has_line_numbers, field),
            // bool has_inline_frames = 10;
            10 => set_bool(&mut self.has_inline_frames, field),
            _ => Ok(()),
        }
    }

    ghost filled_none = { λ m. refl };

    ghost filled_more = { mapping_more };
}

impl Message for Function {
    ghost use Rattle.std.specs.Prelude.{refl};
    ghost use Rattle.pp_tables.specs.Tables.{function_rules, no_function, function_after};
    ghost use Rattle.pp_tables.specs.Takes.{function_put};
    ghost use Rattle.pp_tables.specs.Filling.{function_more};

    ghost rules = { function_rules };

    ghost empty = { no_function };

    ghost put = { function_put };

    ghost filled = { function_after };

    fn none(_: Global) -> Self {
        Function {
            id: 0,
            name: 0,
            system_name: 0,
            filename: 0,
            start_line: 0,
        }
    }

    fn take(&mut self, _: Global, field: &Field<'_>) -> Result<(), ReadRefusal> {
        match field.number {
            // uint64 id = 1;
            1 => set_uint(&mut self.id, field),
            // int64 name = 2;
            2 => set_int(&mut self.name, field),
            // int64 system_name = 3;
            3 => set_int(&mut self.system_name, field),
            // int64 filename = 4;
            4 => set_int(&mut self.filename, field),
            // int64 start_line = 5;
            5 => set_int(&mut self.start_line, field),
            _ => Ok(()),
        }
    }

    ghost filled_none = { λ m. refl };

    ghost filled_more = { function_more };
}

impl Message for Line {
    ghost use Rattle.std.specs.Prelude.{refl};
    ghost use Rattle.pp_tables.specs.Tables.{line_rules, no_line, line_after};
    ghost use Rattle.pp_tables.specs.Takes.{line_put};
    ghost use Rattle.pp_tables.specs.Filling.{line_more};

    ghost rules = { line_rules };

    ghost empty = { no_line };

    ghost put = { line_put };

    ghost filled = { line_after };

    fn none(_: Global) -> Self {
        Line {
            function_id: 0,
            line: 0,
            column: 0,
        }
    }

    fn take(&mut self, _: Global, field: &Field<'_>) -> Result<(), ReadRefusal> {
        match field.number {
            // uint64 function_id = 1;
            1 => set_uint(&mut self.function_id, field),
            // int64 line = 2;
            2 => set_int(&mut self.line, field),
            // int64 column = 3;
            3 => set_int(&mut self.column, field),
            _ => Ok(()),
        }
    }

    ghost filled_none = { λ m. refl };

    ghost filled_more = { line_more };
}

impl Message for Location {
    ghost use Rattle.pp_tables.specs.Tables.{location_rules, no_location, location_after};
    ghost use Rattle.pp_tables.specs.Takes.{location_put};
    ghost use Rattle.pp_tables.specs.Filling.{location_none, location_more};

    ghost rules = { location_rules };

    ghost empty = { no_location };

    ghost put = { location_put };

    ghost filled = { location_after };

    fn none(alloc: Global) -> Self {
        Location {
            id: 0,
            mapping_id: 0,
            address: 0,
            line: List::new(alloc),
            folded: false,
        }
    }

    fn take(&mut self, alloc: Global, field: &Field<'_>) -> Result<(), ReadRefusal> {
        match field.number {
            // uint64 id = 1;
            1 => set_uint(&mut self.id, field),
            // uint64 mapping_id = 2;
            2 => set_uint(&mut self.mapping_id, field),
            // uint64 address = 3;
            3 => set_uint(&mut self.address, field),
            // repeated Line line = 4;
            4 => push_message(alloc, &mut self.line, field),
            // bool is_folded = 5;
            5 => set_bool(&mut self.folded, field),
            _ => Ok(()),
        }
    }

    ghost filled_none = { location_none };

    ghost filled_more = { location_more };
}
