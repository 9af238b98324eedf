//! What the program says of itself.

use crate::commands::Command;
use crate::option_names::{OptionName, has_option};
use crate::usage::put_usage;
use std::alloc::{AllocError, Global};

/// The program's version.
pub const VERSION: &str = "pdb_tool 0.1.0\n";

const OVERVIEW: &str = "\
pdb_tool prints what Microsoft symbol files (PDB) say about a program.

  pdb_tool resolve [--base=HEX] FILE [ADDRESS..]  functions, files and lines at addresses
  pdb_tool variables [--base=HEX] FILE [ADDRESS..]
                                                  the same, with the variables in scope
  pdb_tool find FILE NAME..                       addresses of functions and data
  pdb_tool where FILE SOURCE..                    addresses of source lines
  pdb_tool lines FILE [K..]                       line records of modules
  pdb_tool scopes FILE [K..]                      functions, blocks, variables, inlined calls
  pdb_tool symbols [--all] FILE [K..]             symbol records with all their fields
  pdb_tool types FILE [INDEX..]                   types, with their sizes and members
  pdb_tool sources FILE [K..]                     source files of modules
  pdb_tool modules FILE                           modules (object files), with their sizes
  pdb_tool sections FILE                          section headers of the image
  pdb_tool frames FILE                            how functions lay out their frames (x86)
  pdb_tool streams FILE                           streams of the file, with their sizes
  pdb_tool stream FILE STREAM                     the bytes of a stream
  pdb_tool key FILE..                             symbol-server keys of PDB files and images
  pdb_tool store --symbols=DIR FILE..             files PDB files and images under their keys
  pdb_tool check FILE..                           damage

  pdb_tool help COMMAND                           arguments, output and an example of a command
  pdb_tool help list                              commands of pdb_list, and all errors
  pdb_tool version                                the version

K is the index of a module, counted from 0: modules lists them.

FILE is a PDB or, in each command but key, store and check, an image (EXE or DLL), whose PDB is read.

With --json each command but variables, lines, scopes, symbols, types, stream and store prints a
JSON object on each line.

-- ends the options: what stands behind it is an operand, whatever it begins with.

Exit status: 0, success; 1, a file of several could not be read, a file is damaged, or nothing
was found; 2, a wrong argument; 3, a file can't be read, or the PDB of an image isn't found; 4, it
is no symbol file; 5, out of memory; 6, standard output failed; 7, the file has another key than the
wanted one.
";

const RESOLVE: &str = "\
Prints the code at each ADDRESS, innermost function first: the inlined functions, and then the
function that contains them. Each function is its name on one line, and FILE:LINE:COLUMN on the
next. An empty line ends each address. An unknown name is ??, an unknown line or column 0. Where
no function is known, the name is what that of the public symbol before the address spells, if that
belongs to the same object file and no function that begins at it has ended. A jump which the
linker made for incremental linking is ILT+N(NAME): it leads to NAME.

  ADDRESS     an address relative to the image's load address, of 1 to 16 hex digits: HEX, 0xHEX,
              HEXh, or HEX with a ` before its last eight digits;
              or S:HEX, the number of a section in hex, and an offset in it
  --base=HEX  the load address, which is subtracted from each ADDRESS but S:HEX. An address below
              it, or 2^32 or more above it, has no function
  --key=KEY   the key that FILE has to have, of 33 to 40 hex digits, as key prints it
  --image=IMAGE
              an EXE or DLL. FILE has to have the key of the PDB that it names. Its load address
              is the base where --base isn't given
  --addresses prints each ADDRESS on a line before its text
  --offsets   prints +0x and a number in hex behind the last name of an ADDRESS: how many bytes the
              address is behind the start of that function, jump or public symbol, unless it is 0.
              It changes no JSON
  --json      prints each ADDRESS and its frames as a JSON object on one line. An unknown name or
              file is null. A line of standard input that is no address has null for its frames

If FILE is an image, its load address is the base where neither --base nor --image is given. An
ADDRESS below the load address of an image is relative where it is below the image's size, unless
--base is given.

Options stand before FILE or behind it, each but --symbols at most once, and not both --key and
--image. The value of an option may stand behind it: --base HEX is --base=HEX. Braces and dashes in
KEY don't count. If FILE has another key than the wanted one, nothing is printed, and the status
is 7.

Without an ADDRESS each line of standard input is one. Its text is written before the next line is
read. A line that is no address is printed as it is.

  $ pdb_tool resolve --base=0x140000000 app.pdb 0x140001108
  inner
  a.c:10:0
  main
  a.c:2:0

  $ pdb_tool resolve app.exe 0x140001108
  $ pdb_tool resolve --symbols=/symbols app.exe 0x140001108
  $ pdb_tool resolve --image=app.exe app.pdb 0x140001108
  $ pdb_tool resolve --key=00112233445566778899AABBCCDDEEFF2 app.pdb 1108
  $ pdb_tool resolve --json app.pdb 1:10c
  {\"asked\":\"1:10c\",\"frames\":[{\"name\":\"main\",\"file\":\"a.c\",\"line\":2,\"column\":0}]}
";

const VARIABLES: &str = "\
Prints the code at each ADDRESS as resolve does. Behind the two lines of each function is a line for
each of its variables that is in scope at ADDRESS: two blanks, a word, where the variable is while
the code there runs, and its name. The variables of an inlined call stand behind that call.

The word is param, local, static, thread or constant. Where a variable is, is one of these:

  rcx            in this register
  [rsp+40]       in memory: the value of this register and an offset, in decimal
  [frame+8]      in memory: the same, where the register of the frame isn't known
  0003:00000010  in memory: SECTION:OFFSET in hex; of thread, in the storage of each thread
  +0:ecx,+4:edx  in parts: the offset of each part in the variable, and where the part is
  program:7      as the program of this number computes it
  7              a constant has its value
  -              nowhere: the code at ADDRESS doesn't keep it

ADDRESS, the options and standard input are those of resolve.

  $ pdb_tool variables app.pdb 1:100
  main
  a.c:1:0
    param ecx argc
    local [rsp+16] i
";

const FIND: &str = "\
Prints where the functions, inlined functions, data and labels are whose name is one of the NAMEs.
In a NAME a * stands for any bytes, also none; case counts. Each line has a kind, SECTION:OFFSET in
hex, the address relative to the load address, the size in bytes, and the name. - is a size or an
address that is not known. A public symbol has its readable name, and behind it in parentheses the
decorated one; a NAME may match either. An inlined function stands where it was inlined.

Global symbols come first, and then those of each module. A damaged module is a line
`error N TEXT`, and the next module follows. The status is 1 if nothing was found. With --json a
size or an address that is not known is null, and damage is an object with the members module, error
and text; module is null outside modules.

  $ pdb_tool find app.pdb 'ma*'
  public 0001:00000100 0x1100 - main
  procedure 0001:00000100 0x1100 48 main
  $ pdb_tool find --json app.pdb g
  {\"kind\":\"data\",\"at\":\"0003:00000010\",\"rva\":null,\"length\":null,\"name\":\"g\"}
";

const WHERE: &str = "\
Prints the addresses of source lines. SOURCE is the name of a source file, or the end of its path:
tour.h, src/main.cpp. / is the same as \\, and case doesn't count. Behind it :LINE is one line,
:LINE-LINE a range, the lower line first, and :LINE:COLUMN, as resolve prints it, that line; without
them all lines are printed. There is no search for the nearest line: give a range.

Each output line is `line` or, for a line of an inlined call, `inlined`; then SECTION:OFFSET in hex,
the address relative to the load address, the size in bytes, FILE:LINE:COLUMN, and the name of the
function. Damage is printed as by find. The status is 1 if nothing was found. With --json an unknown
address or name is null.

  $ pdb_tool where app.pdb a.c:1-2
  line 0001:00000100 0x1100 8 a.c:1:0 main
  line 0001:00000108 0x1108 8 a.c:2:0 main
  $ pdb_tool where --json app.pdb a.c:1
  {\"kind\":\"line\",\"at\":\"0001:00000100\",\"rva\":\"0x1100\",\"length\":8,\"file\":\"a.c\",\"line\":1,\"column\":0,\"name\":\"main\"}
";

const LINES: &str = "\
Prints the line records of the modules with these indices, counted from 0, or else of all modules:
SECTION:OFFSET in hex, the size in bytes, and FILE:LINE:COLUMN. An unknown size is -, an unknown
file ??, an unknown column 0. Before each of several modules stands a line `module K NAME`. A
damaged module has a line `error N TEXT`, and the next module follows. `none` is printed for a
module that is not present or has no stream.

  $ pdb_tool lines app.pdb
  0001:00000100 8 a.c:1:0
  0001:00000108 8 a.c:2:0
";

const SCOPES: &str = "\
Prints the scopes of the modules with these indices, counted from 0, or else of all modules:
procedures, thunks, blocks and separated code with SECTION:OFFSET in hex and their size in bytes,
data and labels with SECTION:OFFSET, inlined functions, and variables with the register or the
memory in which they are: eax, [rsp+40]. Behind a local stands a line for each stretch of code in
which it is somewhere, with SECTION:OFFSET and a size in bytes; +4: is a part of it, from byte 4 on.
Behind a name and a colon is the type, as C++ writes it; ?? if the file doesn't have it. Each scope
is indented by two blanks, up to 64. Several modules and damage are printed as by lines.

  $ pdb_tool scopes app.pdb
  procedure 0001:00000100 48 main: int (int, char**)
    relative [rsp+40] count: int
    local index: unsigned
      ecx 0001:00000108 16
    inlined nested: int (int)
";

const SYMBOLS: &str = "\
Prints the symbol records of the modules with these indices, counted from 0, with --all those of
all modules, or else the global symbols. Each record is indented by its scopes, as by scopes: its
index in hex, its kind as cvinfo.h names it, its fields, its name, and behind a colon its type, as
by scopes. Registers have their names on the machine that the module names, or else the file. A
record of a kind that isn't read is printed as its bytes, a damaged one as `error N` and its bytes.
Several modules are printed as by lines.

  $ pdb_tool symbols app.pdb
  00000000 S_PUB32 code=false function=true managed=false msil=false offset=0001:00000100 main
  00000014 S_UDT type_index=00000670 va_list: char*
";

const TYPES: &str = "\
Prints the types with these indices, which are hex, or else all types of the file: the index, the
kind as cvinfo.h names it, the size in bytes, and the name. A type that is only declared has
`forward=` and the index of its definition, or - if the file has none. Behind the name of an
enumeration is its underlying type. Under a type are its members, by two blanks: their offsets in
bytes, the first bit of a bit field, who may use them, unless everybody may, and their names and
types. entry is the offset of a virtual function in its table. An index below 1000 is a type that
the file doesn't describe, as int; one that the file doesn't have is ??. Damage is printed as by
lines; a list of members is cut behind 1024 parts, and names are cut behind 65536 bytes, at <...>.

  $ pdb_tool types app.pdb 102f 1016
  0000102f LF_STRUCTURE size=16 point
    member offset=0 x: int
    member offset=8 access=private next: point*
    method kind=virtual entry=0 length: int () const
  00001016 LF_ENUM size=4 colour: int
    enumerator value=-1 none
";

const SOURCES: &str = "\
Prints the source files of the modules with these indices, counted from 0, or else of all modules:
the kind of the checksum of the file's contents (none, md5, sha1, sha256), the checksum in hex or
-, and the name. Several modules and damage are printed as by lines. With --json each object has the
index of its module, and no line `module K NAME` is printed; a checksum or a name that is not known
is null.

  $ pdb_tool sources app.pdb
  md5 000102030405060708090a0b0c0d0e0f a.c
  $ pdb_tool sources --json app.pdb
  {\"module\":0,\"checksum\":\"md5\",\"digest\":\"000102030405060708090a0b0c0d0e0f\",\"file\":\"a.c\"}
";

const MODULES: &str = "\
Prints the modules (object files) of which the image was linked: the index K, the number of bytes
that came from the module, its name, and in brackets the library or the path that the linker read
it from, if that is another one. With --json that one is null if it is the name or unknown. A list
that can't be read is a line `error N TEXT`, or an object with the members error and text.

  $ pdb_tool modules app.pdb
  0 48 a.obj
  $ pdb_tool modules --json app.pdb
  {\"module\":0,\"bytes\":48,\"name\":\"a.obj\",\"object\":null}
";

const SECTIONS: &str = "\
Prints the section headers of the image: the number in hex, counted from 1, the address relative to
the load address, the size in memory, the characteristics in hex, and the name. `none` is printed if
the file has none.

  $ pdb_tool sections app.pdb
  0001 0x1000 4096 60000020 .text
  $ pdb_tool sections --json app.pdb
  {\"section\":1,\"rva\":\"0x1000\",\"size\":4096,\"flags\":\"60000020\",\"name\":\".text\"}
";

const STREAMS: &str = "\
Prints the streams of the file: the number, the size in bytes or - if the stream is absent, and what
the stream is, or -. A stream can be several things: they are separated by commas.

  $ pdb_tool streams app.pdb
  0 0 old directory
  1 67 information
  2 - types
  $ pdb_tool streams --json app.pdb
  {\"stream\":0,\"size\":0,\"what\":[\"old directory\"]}
  {\"stream\":1,\"size\":67,\"what\":[\"information\"]}
  {\"stream\":2,\"size\":null,\"what\":[\"types\"]}
";

const FRAMES: &str = "\
Prints how functions lay out their stack frames, as compilers for x86 tell it to debuggers: the
address relative to the load address, the number of bytes of code, the kind of the frame, the sizes
in bytes of local variables, parameters and saved registers, how many bytes of code set the frame
up, and how large the stack becomes at most. Behind them stand seh, eh, start and bp: the function
handles exceptions of Windows, or of C++; the code is where a function begins; the frame pointer has
another use. Last is the program by which a debugger undoes the frame; ?? if the file lacks it.

The kind is framedata for a record with such a program, or else fpo, trap, tss or standard. Records
with a program come first. `none` is printed if the file has neither stream. With --json a program
that isn't there is null.

  $ pdb_tool frames app.pdb
  0x1010 39 framedata locals=0 params=8 saved=4 prolog=3 max=0 start $T0 $ebp = $eip $T0 4 + ^ =
  0x1040 12 fpo locals=0 params=4 saved=0 prolog=0 max=0
  $ pdb_tool frames --json app.pdb
  {\"rva\":4160,\"size\":12,\"kind\":\"fpo\",\"locals\":0,\"params\":4,\"saved\":0,\"prolog\":0,\"max\":0,\"seh\":false,\"eh\":false,\"start\":false,\"bp\":false,\"program\":null}
";

const STREAM: &str = "\
Writes the bytes of a stream as they are. STREAM is the number of the stream, as streams prints it,
of one to ten digits, or else its name. If the file has no such stream, or it can't be read, nothing
is written, and the status is 1.

  $ pdb_tool stream app.pdb 1 > information
  $ pdb_tool stream app.pdb /names > names
";

const STORE: &str = "\
Files each FILE, a PDB or an image (EXE or DLL), in the folder DIR under its key, where debuggers,
symbol servers and --symbols=DIR find it: as DIR/NAME/KEY/NAME, where NAME is what stands behind
the last / or \\ of FILE, and KEY what key prints. Folders are made where they aren't there. A line
is `stored PATH`, or `present PATH` if the same bytes are there already. Other bytes stay, which is
told on standard error; --replace replaces them. A FILE that can't be filed is told there too, the
next one follows, and the status is then 1. No reader sees half a file: it is written under another
name first, PATH.0.part.

  $ pdb_tool store --symbols=/symbols app.pdb app.exe
  stored /symbols/app.pdb/00112233445566778899AABBCCDDEEFF2/app.pdb
  stored /symbols/app.exe/112233443000/app.exe
";

const KEY: &str = "\
Prints the key under which a symbol server stores each FILE: of a PDB its GUID in 32 hex digits and
its age in hex digits, a blank, and FILE. An image (EXE or DLL) has another key: its time stamp in
eight hex digits and its size in hex digits. Behind FILE follow the key and the path of the PDB that
it names, or - - if it names none. An error of a FILE is printed on standard error, and the status
is then 1. With --path each name is the path below a store of a symbol server, NAME/KEY/NAME; - is
that of a name that no file can have. With --json each line is a JSON object, of an image with the
members pdb_key and pdb too, which are null if it names no PDB; --path changes no JSON.

  $ pdb_tool key app.pdb app.exe
  00112233445566778899AABBCCDDEEFF2 app.pdb
  112233443000 app.exe 00112233445566778899AABBCCDDEEFF2 C:\\app\\app.pdb
  $ pdb_tool key --path app.pdb
  00112233445566778899AABBCCDDEEFF2 app.pdb/00112233445566778899AABBCCDDEEFF2/app.pdb
  $ pdb_tool key --json app.pdb
  {\"key\":\"00112233445566778899AABBCCDDEEFF2\",\"file\":\"app.pdb\"}
";

const CHECK: &str = "\
Reads each FILE to its end and prints what is damaged: FILE, the part, and the error, one line for
each list, symbol or inlined call that can't be read, and for each type whose members can't. A file
without damage is `ok`. What a file doesn't have is no damage, nor is a kind of symbol that isn't
known. The names of files and the streams that only other programs know are not read. K counts
modules from 0. Symbols have the indices that symbols prints, and types those that types prints. An
error of a FILE is printed on standard error. The status is 1 if anything is damaged. With --json
the part and the error of a FILE without damage are null.

  $ pdb_tool check app.pdb damaged.pdb
  app.pdb: ok
  damaged.pdb: global symbols: the data ends before a record does
  damaged.pdb: module 0 symbol 00000004: the data ends before a record does
  $ pdb_tool check --json app.pdb
  {\"file\":\"app.pdb\",\"where\":null,\"text\":null}
";

const HELP: &str = "\
Prints what the program can do, or the arguments, the output and an example of a COMMAND. With list
it prints the commands of pdb_list, and all errors.

  $ pdb_tool help find
  $ pdb_tool find --help
";

const VERSION_HELP: &str = "\
Prints the version of the program.

  $ pdb_tool version
  pdb_tool 0.1.0
";

/// Which PDB is read where FILE is an image.
const IMAGE: &str = "\n\
If FILE is an image (EXE or DLL), its PDB is read: the first with its key beside the image, in each
DIR of --symbols=DIR, which may stand several times, or at the path that the image has. A DIR is a
folder of PDBs, or a store of a symbol server. Without --symbols the folders are those of the
variable _NT_SYMBOL_PATH. No server is asked. The status is 7 if only PDBs with other keys are
there, and 3 if there is none.
";

/// What a command does, its arguments, its output and an example.
fn body_of(command: Command) -> &'static str {
    match command {
        Command::Resolve => RESOLVE,
        Command::Variables => VARIABLES,
        Command::Find => FIND,
        Command::Where => WHERE,
        Command::Lines => LINES,
        Command::Scopes => SCOPES,
        Command::Symbols => SYMBOLS,
        Command::Types => TYPES,
        Command::Sources => SOURCES,
        Command::Modules => MODULES,
        Command::Sections => SECTIONS,
        Command::Frames => FRAMES,
        Command::Streams => STREAMS,
        Command::Stream => STREAM,
        Command::Key => KEY,
        Command::Store => STORE,
        Command::Check => CHECK,
        Command::Help => HELP,
        Command::Version => VERSION_HELP,
    }
}

/// The help on a command: how it is written, and what it does.
fn command_help(alloc: Global, command: Command) -> Result<Vec<u8>, AllocError> {
    let mut text = Vec::new(alloc);
    put_usage(&mut text, command)?;
    text.extend_from_slice(b"\n\n")?;
    text.extend_from_slice(body_of(command).as_bytes())?;
    if has_option(command, OptionName::Symbols) && command != Command::Store {
        text.extend_from_slice(IMAGE.as_bytes())?;
    }
    Ok(text)
}

/// The text of help: of all, or of a command.
pub fn help_text(alloc: Global, command: Option<Command>) -> Result<Vec<u8>, AllocError> {
    match command {
        Some(command) => command_help(alloc, command),
        None => {
            let mut text = Vec::new(alloc);
            text.extend_from_slice(OVERVIEW.as_bytes())?;
            Ok(text)
        }
    }
}
