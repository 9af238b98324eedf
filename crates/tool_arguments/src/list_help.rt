//! What the program prints of `pdb_list`.

/// The commands of `pdb_list`, and the errors of both programs.
pub const LIST: &str = "\
pdb_list FILE COMMAND..

Prints a symbol file in lines of numbers and names, for other programs to read. K counts
modules from 0; I is the index of a type or an id of another module.

  info         the information stream, and the DBI stream
  names        the names of streams
  modules      the modules, with the sizes of their parts
  contributions
               which bytes of the image came from which module
  sections     the section headers of the image
  globals      the global symbols
  symbols K    the symbols of a module
  lines K      its line records
  files K      its files, with their checksums
  inlinees K   its inlined functions, and the line records of their calls
  imports K I  the module and the local number that I refers to
  exports K    its exports

The pages pdb_list(1) and crates/pdb_list/README.md have the fields of each line. A command that
fails is the line error N, and a list ends with it where it has an error in it:

   1  the data ends before a record does
   2  not supported: a feature
   3  this is no PDB file of the format MSF 7.00
   4  the container has an invalid page size
   5  a page is not among the pages of the file
   6  there is no stream of a number
   7  there is no stream of this name
   8  the file has no global symbols
   9  the file has no complete address map
  10  invalid length: a part
  11  a symbol record is shorter than two bytes
  12  symbols of a kind are not supported
  13  debug subsections of a kind are not supported
  14  file checksums of a kind are not supported
  15  there is no file checksum at an offset
  16  a binary annotation is unknown
  17  a number in a binary annotation is not spelled as it must be
  18  an index refers to no other module
  19  an index is not among the imports of the module
  20  a prefix says no known kind of number
  21  the file could not be read
  22  out of memory
";
