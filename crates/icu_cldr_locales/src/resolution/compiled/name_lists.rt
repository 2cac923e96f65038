//! What people write for a language: a region (`likelySubtags.xml`) or a name in English (`en.xml`),
//! written by `locale_texts.py` of the tests from CLDR's data.

/// Regions, and the language that is likely there.
pub(crate) const REGION_LANGUAGES: &str = "\
AD  ca AE  ar AF  fa AL  sq AM  hy AO  pt AQ  und AR  es AS  sm AT  de AW  nl AX  sv AZ  az BA  bs \
BD  bn BE  nl BF  fr BG  bg BH  ar BI  rn BJ  fr BL  fr BN  ms BO  es BQ  pap BR  pt BT  dz BV  und \
BY  be CD  sw CF  fr CG  fr CH  de CI  fr CL  es CM  fr CN  zh CO  es CP  und CR  es CU  es CV  pt \
CW  pap CY  el CZ  cs DE  de DJ  aa DK  da DO  es DZ  ar EA  es EC  es EE  et EG  ar EH  ar ER  ti \
ES  es ET  am EU  en EZ  de FI  fi FO  fo FR  fr GA  fr GE  ka GF  fr GH  ak GL  kl GN  fr GP  fr \
GQ  es GR  el GS  und GT  es GW  pt HK  zh HM  und HN  es HR  hr HT  ht HU  hu IC  es ID  id IL  he \
IN  hi IQ  ar IR  fa IS  is IT  it JO  ar JP  ja KE  sw KG  ky KH  km KM  ar KP  ko KR  ko KW  ar \
KZ  ru LA  lo LB  ar LI  de LK  si LS  st LT  lt LU  fr LV  lv LY  ar MA  ar MC  fr MD  ro ME  sr \
MF  fr MG  mg MK  mk ML  bm MM  my MN  mn MO  zh MQ  fr MR  ar MT  mt MU  mfe MV  dv MX  es MY  ms \
MZ  pt NA  af NC  fr NE  ha NI  es NL  nl NO  nb NP  ne OM  ar PA  es PE  es PF  fr PG  tpi PH  fil \
PK  ur PL  pl PM  fr PR  es PS  ar PT  pt PW  pau PY  gn QA  ar QO  en RE  fr RO  ro RS  sr RU  ru \
RW  rw SA  ar SC  fr SD  ar SE  sv SI  sl SJ  nb SK  sk SM  it SN  fr SO  so SR  nl ST  pt SV  es \
SY  ar TD  fr TF  fr TG  fr TH  th TJ  tg TK  tkl TL  pt TM  tk TN  ar TO  to TR  tr TV  tvl TW  zh \
TZ  sw UA  uk UG  sw UY  es UZ  uz VA  it VE  es VN  vi VU  bi WF  fr WS  sm XK  sq YE  ar YT  fr \
ZW  sn";

/// The English names of languages, and the language.
pub(crate) const LANGUAGE_NAMES: &str = "\
abkhazian  ab achinese  ace acoli  ach adangme  ada adyghe  ady afar  aa afrihili  afh \
afrikaans  af aghem  agq ainu  ain akan  ak akkadian  akk akoose  bss alabama  akz albanian  sq \
aleut  ale amharic  am angika  anp arabic  ar aragonese  an aramaic  arc araona  aro arapaho  arp \
arawak  arw armenian  hy aromanian  rup arpitan  frp assamese  as asturian  ast atikamekw  atj \
atsam  cch avaric  av avestan  ae awadhi  awa aymara  ay azerbaijani  az badaga  bfq bafia  ksf \
bafut  bfd bakhtiari  bqi balinese  ban baluchi  bal bambara  bm bamun  bax bangla  bn banjar  bjn \
basaa  bas bashkir  ba basque  eu bavarian  bar beja  bej belarusian  be bemba  bem bena  bez \
betawi  bew bhojpuri  bho bikol  bik bini  bin bishnupriya  bpy bislama  bi blin  byn \
blissymbols  zbl bodo  brx bosnian  bs brahui  brh braj  bra breton  br buginese  bug bulgarian  bg \
bulu  bum buriat  bua burmese  my caddo  cad cantonese  yue capiznon  cps carib  car catalan  ca \
cayuga  cay cebuano  ceb chagatai  chg chakma  ccp chamorro  ch chechen  ce cherokee  chr \
cheyenne  chy chibcha  chb chickasaw  cic chiga  cgg chilcotin  clc chinese  zh chipewyan  chp \
choctaw  cho chuukese  chk chuvash  cv colognian  ksh comorian  swb coptic  cop cornish  kw \
corsican  co cree  cr croatian  hr czech  cs dakota  dak danish  da dargwa  dar dazaga  dzg \
delaware  del dinka  din divehi  dv dogri  doi dogrib  dgr duala  dua dutch  nl dyula  dyu \
dzongkha  dz efik  efi ekajuk  eka elamite  elx embu  ebu emilian  egl english  en erzya  myv \
esperanto  eo estonian  et ewondo  ewo extremaduran  ext fang  fan fanti  fat faroese  fo \
fijian  fj filipino  fil finnish  fi frafra  gur french  fr friulian  fur fulah  ff gagauz  gag \
galician  gl ganda  lg gayo  gay gbaya  gba geez  gez georgian  ka german  de ghomala  bbj \
gilaki  glk gilbertese  gil gondi  gon gorontalo  gor gothic  got grebo  grb greek  el guarani  gn \
gujarati  gu gusii  guz haida  hai halkomelem  hur hausa  ha hawaiian  haw hebrew  he herero  hz \
hiligaynon  hil hindi  hi hittite  hit hmong  hmn hungarian  hu hupa  hup iban  iba ibibio  ibb \
icelandic  is igbo  ig iloko  ilo indonesian  id ingrian  izh ingush  inh interlingua  ia \
interlingue  ie inuktitut  iu inupiaq  ik irish  ga italian  it japanese  ja javanese  jv \
jutish  jut kabardian  kbd kabuverdianu  kea kabyle  kab kachin  kac kaingang  kgp kako  kkj \
kalaallisut  kl kalenjin  kln kalmyk  xal kamba  kam kanembu  kbl kannada  kn kanuri  kr \
karelian  krl kashmiri  ks kashubian  csb kawi  kaw kazakh  kk kenyang  ken khasi  kha khmer  km \
khotanese  kho khowar  khw kikuyu  ki kimbundu  kmb kinyarwanda  rw kirmanjki  kiu klingon  tlh \
komi  kv kongo  kg konkani  kok korean  ko koro  kfo kosraean  kos kotava  avk kpelle  kpe \
krio  kri kuanyama  kj kumyk  kum kurdish  ku kurukh  kru kutenai  kut kwasio  nmg kyrgyz  ky \
ladino  lad lahnda  lah lakota  lkt lamba  lam langi  lag latgalian  ltg latin  la latvian  lv \
lezghian  lez ligurian  lij lillooet  lil limburgish  li lingala  ln lithuanian  lt livonian  liv \
lojban  jbo lombard  lmo lozi  loz luiseno  lui lunda  lun luxembourgish  lb luyia  luy maba  mde \
macedonian  mk machame  jmc madurese  mad mafa  maf magahi  mag maithili  mai makasar  mak \
makonde  kde malagasy  mg malay  ms malayalam  ml malecite  pqm maltese  mt manchu  mnc mandar  mdr \
mandingo  man manipuri  mni manx  gv mapuche  arn marathi  mr mari  chm marshallese  mh \
marwari  mwr masai  mas mazanderani  mzn medumba  byv mende  men mentawai  mwv meru  mer \
michif  crg minangkabau  min mingrelian  xmf mirandese  mwl mizo  lus mohawk  moh moksha  mdf \
mongo  lol mongolian  mn morisyen  mfe mossi  mos mundang  mua muscogee  mus myene  mye nama  naq \
nauru  na navajo  nv ndonga  ng neapolitan  nap nepali  ne newari  new ngambay  sba ngiemboon  nnh \
ngomba  jgo nheengatu  yrl nias  nia niuean  niu nogai  nog norwegian  no novial  nov nuer  nus \
nyamwezi  nym nyanja  ny nyankole  nyn nyoro  nyo nzima  nzi occitan  oc odia  or ojibwa  oj \
okanagan  oka oromo  om osage  osa ossetic  os pahlavi  pal palauan  pau pali  pi pampanga  pam \
pangasinan  pag papiamento  pap pashto  ps persian  fa phoenician  phn picard  pcd piedmontese  pms \
plautdietsch  pdt pohnpeian  pon polish  pl pontic  pnt portuguese  pt prussian  prg punjabi  pa \
quechua  qu rajasthani  raj rapanui  rap rarotongan  rar riffian  rif rohingya  rhg romagnol  rgn \
romanian  ro romansh  rm romany  rom rombo  rof rotuman  rtm roviana  rug rundi  rn russian  ru \
rusyn  rue saho  ssy sakha  sah samburu  saq samoan  sm samogitian  sgs sandawe  sad sango  sg \
sangu  sbp sanskrit  sa santali  sat sardinian  sc sasak  sas saurashtra  saz scots  sco \
selayar  sly selkup  sel sena  seh seneca  see serbian  sr serer  srr seri  sei shambala  ksb \
shan  shn shona  sn sicilian  scn sidamo  sid siksika  bla silesian  szl sindhi  sd sinhala  si \
slave  den slovak  sk slovenian  sl soga  xog sogdien  sog somali  so soninke  snk spanish  es \
sukuma  suk sumerian  sux sundanese  su susu  sus swahili  sw swati  ss swedish  sv syriac  syr \
tachelhit  shi tagalog  tl tagish  tgx tahitian  ty tahltan  tht taita  dav tajik  tg talysh  tly \
tamashek  tmh tamil  ta taroko  trv tasawaq  twq tatar  tt telugu  te tereno  ter teso  teo \
tetum  tet thai  th tibetan  bo tigre  tig tigrinya  ti timne  tem tlingit  tli tokelau  tkl \
tongan  to torwali  trw tsakhur  tkr tsakonian  tsd tsimshian  tsi tsonga  ts tswana  tn tulu  tcy \
tumbuka  tum turkish  tr turkmen  tk turoyo  tru tuvalu  tvl tuvinian  tyv tyap  kcg udmurt  udm \
ugaritic  uga ukrainian  uk umbundu  umb urdu  ur uyghur  ug uzbek  uz venda  ve venetian  vec \
veps  vep vietnamese  vi votic  vot vunjo  vun walloon  wa walser  wae waray  war warlpiri  wbp \
washo  was wayuu  guc welsh  cy wolaytta  wal wolof  wo xhosa  xh yangben  yav yapese  yap \
yemba  ybb yiddish  yi yoruba  yo zapotec  zap zarma  dje zaza  zza zeelandic  zea zenaga  zen \
zhuang  za zulu  zu zuni  zun";
